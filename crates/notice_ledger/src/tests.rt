use crate::{in_order, is_bad_name, is_bad_period, is_blank, is_longer_than};
use chat_model::{List, OutOfMemory, Request, SettingChange, Text, UserId};
use std::alloc::Global;
use std::iter::repeat_n;
use std::test::Fail;

/// The most characters of a topic, of a name and of a text.
const LIMITS: [usize; 3] = [60, 100, 10_000];

/// A text of so many characters, each of two bytes.
fn letters(alloc: Global, count: usize) -> Result<String, OutOfMemory> {
    Ok(repeat_n('\u{e9}', count).collect(alloc)?)
}

#[test]
fn characters_are_counted_and_not_bytes(rt: HostRuntime) -> Result<(), Fail> {
    for limit in LIMITS {
        assert!(rt;
            !is_longer_than(&letters(rt.alloc(), limit)?, limit),
            "{limit} letters"
        );
        assert!(rt;
            is_longer_than(&letters(rt.alloc(), limit + 1)?, limit),
            "one more than {limit}"
        );
    }
    Ok(())
}

#[test]
fn a_text_of_whitespace_is_blank(rt: HostRuntime) {
    for text in ["", "  ", "\n\t", "\u{3000}\u{a0}", "\u{85}\u{2028}"] {
        assert!(rt; is_blank(text), "{text:?}");
    }
    for text in ["a", " a ", "\u{3000}.", "\u{200b}"] {
        assert!(rt; !is_blank(text), "{text:?}");
    }
}

#[test]
fn a_bad_name_is_told(rt: HostRuntime) {
    for name in [
        "",
        " ",
        " Ada",
        "Ada ",
        "A\nda",
        "A\0da",
        "A\u{7f}da",
        "A\u{85}da",
    ] {
        assert!(rt; is_bad_name(name), "{name:?}");
    }
    for name in [
        "a*b", "a|b", "a@b", "a\\b", "a>b", "a\"b", "a`b", "`", "\u{e9}*",
    ] {
        assert!(rt; is_bad_name(name), "{name:?}");
    }
    for name in ["Ada", "Ada Lovelace", "\u{e9}", "a<b", "o'c(d)"] {
        assert!(rt; !is_bad_name(name), "{name:?}");
    }
}

#[test]
fn a_period_outside_its_bounds_is_told(rt: HostRuntime) {
    for seconds in [0, 604_801, u64::MAX] {
        assert!(rt; is_bad_period(SettingChange::Period(seconds)), "{seconds}");
    }
    for seconds in [1, 120, 604_800] {
        assert!(rt; !is_bad_period(SettingChange::Period(seconds)), "{seconds}");
    }
    assert!(rt; !is_bad_period(SettingChange::PushOnline(true)));
}

#[test]
fn members_ascend_once_each(rt: HostRuntime) -> Result<(), Fail> {
    let mut members = List::new(rt.alloc());
    for number in [2, 1, 2] {
        members.push(UserId(number))?;
    }
    let request = Request::AddGroup {
        name: Text::from_str(rt.alloc(), "ops")?,
        members,
    };
    match in_order(request) {
        Request::AddGroup { name, members } => {
            assert_eq!(rt; name.as_str(), "ops");
            assert_eq!(rt; members.as_slice(), [UserId(1), UserId(2)].as_slice());
        }
        _ => panic!(rt; "another request"),
    }
    Ok(())
}

#[test]
fn a_request_without_a_list_stays(rt: HostRuntime) -> Result<(), Fail> {
    let request = Request::AddUser {
        name: Text::from_str(rt.alloc(), "Ada")?,
        bot: true,
    };
    match in_order(request) {
        Request::AddUser { name, bot } => {
            assert_eq!(rt; name.as_str(), "Ada");
            assert!(rt; bot);
        }
        _ => panic!(rt; "another request"),
    }
    Ok(())
}
