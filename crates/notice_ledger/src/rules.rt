//! The rules that look at a text alone, or at a change of settings.
ghost use Rattle.std.specs.Prelude.{◌≡◌, chars};
ghost use Rattle.std.specs.List.{list_any};
ghost use Rattle.notice_ledger.specs.Texts.{has_outer_space, is_bad_name, is_blank, is_forbidden, is_longer_than};
ghost use Rattle.notice_ledger.specs.Past.Refusals.{is_bad_period};

use chat_model::SettingChange;

// In seconds: a second and a week.
const SHORTEST_PERIOD: u64 = 1;

const LONGEST_PERIOD: u64 = 604_800;

/// Whether the text has more than so many characters, which are Unicode scalar values and not bytes: the cause of
/// `TextTooLong`, `TopicTooLong` and `NameTooLong`.
pub fn is_longer_than(text: &str, most: usize) -> bool
    ensures { result ≡ is_longer_than most text.now }
{
    text.chars().count() > most
}

/// Whether the text has only whitespace, also beyond ASCII, as an empty text has: the cause of `EmptyText`.
pub fn is_blank(text: &str) -> bool
    ensures { result ≡ is_blank text.now }
{
    text.chars().all(|c| c.is_whitespace())
}

/// Whether the name is empty, begins or ends with a space, or holds a control character or one of `*`, `|`, `@`,
/// `\`, `>`, `"` and a backquote: the cause of `BadName`.
#[tactic(auto, unfolding(crate::specs::Texts::is_bad_name))]
pub fn is_bad_name(name: &str) -> bool
    ensures { result ≡ is_bad_name name.now }
{
    name.is_empty() || has_outer_space(name.as_bytes()) || has_forbidden(name)
}

fn has_outer_space(name: &[u8]) -> bool
    ensures { result ≡ has_outer_space name.now }
{
    name.starts_with(b" ") || name.ends_with(b" ")
}

/// Whether the name has a character that no name has.
fn has_forbidden(name: &str) -> bool
    ensures { result ≡ list_any is_forbidden (chars name.now) }
{
    name.chars().any(|c| is_forbidden(c))
}

/// Whether no name has this character.
fn is_forbidden(c: char) -> bool
    ensures { result ≡ is_forbidden c }
{
    c.is_control() || matches!(c, '*' | '|' | '@' | '\\' | '>' | '"' | '`')
}

/// Whether a period is set outside 1 to 604,800 seconds: the cause of `BadPeriod`.
pub fn is_bad_period(change: SettingChange) -> bool
    ensures { result ≡ is_bad_period change }
{
    match change {
        SettingChange::Period(seconds) => seconds < SHORTEST_PERIOD || seconds > LONGEST_PERIOD,
        _ => false,
    }
}
