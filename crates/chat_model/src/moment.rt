//! Moments in time.
ghost use Rattle.std.specs.Prelude.{◌≡◌, ℕ, ◌<◌, ◌^◌, ◌↔◌, IsSome, IfSome};

use crate::Same;
use std::marker::Model;

/// A number of seconds since 1970-01-01T00:00:00Z, below 2^37.
#[derive(Clone, Copy, Debug, PartialEq, Eq, PartialOrd, Ord)]
pub struct Moment(u64);

impl Same for Moment {
    fn is_same(&self, other: &Moment) -> bool {
        self == other
    }
}

impl Model for Moment {
    ghost Value = { ℕ };

    ghost view = { λ m. m.0 };

    ghost invariant = { λ m. m.0 < 2 ^ 37 };

    ghost inverse = { λ n. record { 0 = n } };
}

impl Moment {
    /// The moment `s` seconds after 1970-01-01T00:00:00Z. `None` exactly from 2^37 on.
    pub fn new(s: u64) -> Option<Moment>
        ensures valid { IsSome result ↔ (s < 2 ^ 37) }
        ensures value { IfSome result (λ m. m ≡ s) }
    {
        if s < 1 << 37 { Some(Moment(s)) } else { None }
    }

    /// The seconds since 1970-01-01T00:00:00Z.
    pub fn seconds(self) -> u64
        ensures value { result ≡ self }
        ensures small { result < 2 ^ 37 }
    {
        self.0
    }
}
