//! The latest beat of each user.
ghost use Rattle.std.specs.Prelude.{◌≡◌, ◌+◌, ◌==◌, ◌&&◌, ◌++◌, [], ◌∷◌, IfOk, OnOk, OnErr, map, nat_le, if◌then◌else◌};
ghost use Rattle.std.specs.List.{list_any};
ghost use Rattle.presence_queues.specs.Steps.{later_beat, beats_after};

use chat_model::{Moment, OutOfMemory, UserId};

/// The latest beat of a user.
#[derive(Clone, Copy, Debug, PartialEq, Eq)]
pub struct Beat {
    pub user: UserId,
    pub at: Moment,
}

/// How many seconds a beat makes its user recent.
const RECENT: u64 = 140;

/// Whether a beat of the user at most 140 seconds ago is recorded.
pub fn is_recent(beats: &[Beat], user: UserId, now: Moment) -> bool
    ensures { result ≡ list_any (λ beat. beat.user.0 == user.0 && nat_le now (beat.at + 140)) beats.now }
{
    beats.iter().any(|beat| beat.user.0 == user.0 && now.seconds() <= beat.at.seconds() + RECENT)
}

impl Beat {
    /// Keeps the later of the beat and the moment, where it is the user's.
    fn keep_later(&mut self, user: UserId, now: Moment)
        ensures { self.new ≡ later_beat user now self.old }
    {
        if self.user.0 == user.0 && self.at.seconds() < now.seconds() {
            self.at = now;
        }
    }
}

/// Keeps the later of the user's beat and this moment.
fn keep_later(beats: &mut [Beat], user: UserId, now: Moment)
    ensures { beats.new ≡ map (later_beat user now) beats.old }
{
    for beat in beats.iter_mut() {
        beat.keep_later(user, now);
    }
}

/// Whether a beat of the user is recorded.
fn has_beat(beats: &[Beat], user: UserId) -> bool
    ensures { result ≡ list_any (λ beat. beat.user.0 == user.0) beats.now }
{
    beats.iter().any(|beat| beat.user.0 == user.0)
}

/// Keeps the later of the user's beat and this moment, which may be the first.
pub fn record_beat(beats: &mut Vec<Beat>, user: UserId, now: Moment) -> Result<(), OutOfMemory>
    ensures ok { OnOk result (beats.new.items ≡ beats_after user now beats.old.items) }
    ensures err { OnErr result (beats.new.items ≡ beats.old.items) }
{
    if has_beat(beats, user) {
        keep_later(beats, user, now);
    } else {
        beats.push(Beat { user, at: now })?;
    }
    Ok(())
}
