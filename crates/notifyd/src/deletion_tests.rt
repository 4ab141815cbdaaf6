//! Whole scripts with deletions: what they bar before it is ready, before its turn and after it; and who may read or
//! delete a message.
use crate::preference_tests::expect_counted;
use crate::run_tests::expect_opened;
use std::test::Fail;

/// Each goes behind the opening, with `ready N` and `dealt K LIST` for the lines that they stand for.
pub const DELETIONS: [&str; 15] = [
    r#"# A deletion before the deal.
send 1 1 "lunch" "hi @**Ben**" => sent 1 deal 0
delete 1 1 => ok
audit => audit flight=0 held=0 ready=0 handed=0 read=0 deleted=2 off=0 live=0 entries=0 waiting=0 written=0
dealt 0 2=idle
push => nothing ready
mail => not due -
read 2 1 => refused 12
audit => audit flight=0 held=0 ready=0 handed=0 read=0 deleted=2 off=0 live=0 entries=0 waiting=0 written=0
"#,
    r#"# A deletion between the deal and its absorption.
send 1 1 "lunch" "hi @**Ben**" => sent 1 deal 0
deal => dealt 0 2=idle
delete 1 1 => ok
absorb => absorbed dealt 0
push => nothing ready
mail => not due -
audit => audit flight=0 held=0 ready=0 handed=0 read=0 deleted=2 off=0 live=0 entries=0 waiting=0 written=0
"#,
    r#"# A deleted message is neither mailed nor pushed: what was ready is dropped at its turn.
send 1 1 "lunch" "hi @**Ben**" => sent 1 deal 0
dealt 0 2=idle
delete 1 1 => ok
push => dropped 2 message=1 deleted
at 220
mail => mailed 2 entries=0 dropped=1
audit => audit flight=0 held=0 ready=0 handed=0 read=0 deleted=2 off=0 live=0 entries=0 waiting=0 written=0
read 2 1 => refused 12
"#,
    r#"# A deletion after the mail turn drops the push alone, and removes nothing.
send 1 1 "lunch" "hi @**Ben**" => sent 1 deal 0
dealt 0 2=idle
at 220
mail => mailed 2 entries=1 dropped=0
delete 1 1 => ok
mail => not due -
push => dropped 2 message=1 deleted
push => nothing ready
audit => audit flight=0 held=0 ready=0 handed=1 read=0 deleted=1 off=0 live=0 entries=1 waiting=0 written=0
"#,
    r#"# A deletion after the push turn removes the push. Only the sender deletes.
send 1 1 "lunch" "hi @**Ben**" => sent 1 deal 0
dealt 0 2=idle
push => pushed 2 message=1 mention
delete 2 1 => refused 15
delete 1 1 => ok
push => removed 2 count=1
audit => audit flight=0 held=0 ready=0 handed=1 read=0 deleted=1 off=0 live=0 entries=2 waiting=0 written=1
"#,
    r#"# A deletion after both turns, and after it nothing more.
send 1 1 "lunch" "hi @**Ben**" => sent 1 deal 0
dealt 0 2=idle
at 220
mail => mailed 2 entries=1 dropped=0
push => pushed 2 message=1 mention
delete 1 1 => ok
audit => audit flight=0 held=0 ready=0 handed=2 read=0 deleted=0 off=0 live=0 entries=2 waiting=1 written=0
push => removed 2 count=1
delete 1 1 => refused 12
read 2 1 => refused 12
push => nothing ready
audit => audit flight=0 held=0 ready=0 handed=2 read=0 deleted=0 off=0 live=0 entries=3 waiting=0 written=1
"#,
    r#"# A deletion after the removal of a read makes no other one.
send 1 1 "lunch" "hi @**Ben**" => sent 1 deal 0
dealt 0 2=idle
push => pushed 2 message=1 mention
read 2 1 => ok
push => removed 2 count=1
delete 1 1 => ok
push => nothing ready
audit => audit flight=0 held=0 ready=0 handed=1 read=1 deleted=0 off=0 live=0 entries=2 waiting=0 written=1
"#,
    r#"# A read, then a deletion before the turn: each user's cause is what came first.
user "Cy" => user 3
sub 3 1 on => ok
send 1 1 "lunch" "@**Ben** @**Cy**" => sent 1 deal 0
dealt 0 2=idle,3=idle
read 2 1 => ok
delete 1 1 => ok
audit => audit flight=0 held=0 ready=0 handed=0 read=2 deleted=2 off=0 live=0 entries=0 waiting=0 written=0
push => dropped 2 message=1 read
push => dropped 3 message=1 deleted
at 220
mail => mailed 2 entries=0 dropped=1
mail => mailed 3 entries=0 dropped=1
mail => not due -
audit => audit flight=0 held=0 ready=0 handed=0 read=2 deleted=2 off=0 live=0 entries=0 waiting=0 written=0
"#,
    r#"# A deletion, then a read before the turn: the message is no more.
send 1 1 "lunch" "hi @**Ben**" => sent 1 deal 0
dealt 0 2=idle
delete 1 1 => ok
read 2 1 => refused 12
push => dropped 2 message=1 deleted
at 220
mail => mailed 2 entries=0 dropped=1
audit => audit flight=0 held=0 ready=0 handed=0 read=0 deleted=2 off=0 live=0 entries=0 waiting=0 written=0
"#,
    r#"# The same before anything is ready.
send 1 1 "lunch" "hi @**Ben**" => sent 1 deal 0
send 1 1 "lunch" "again @**Ben**" => sent 2 deal 1
read 2 1 => ok
delete 1 1 => ok
delete 1 2 => ok
read 2 2 => refused 12
dealt 0 2=idle
dealt 1 2=idle
push => nothing ready
mail => not due -
audit => audit flight=0 held=0 ready=0 handed=0 read=2 deleted=2 off=0 live=0 entries=0 waiting=0 written=0
"#,
    r#"# A deletion removes the push of each user, by user, behind what waited before it.
user "Cy" => user 3
sub 3 1 on => ok
send 1 1 "lunch" "@**Cy** @**Ben**" => sent 1 deal 0
dealt 0 2=idle,3=idle
push => pushed 2 message=1 mention
push => pushed 3 message=1 mention
send 2 1 "lunch" "@**Ada**" => sent 2 deal 1
dealt 1 1=idle
delete 1 1 => ok
audit => audit flight=0 held=0 ready=2 handed=2 read=0 deleted=2 off=0 live=0 entries=2 waiting=2 written=0
push => pushed 1 message=2 mention
push => removed 2 count=1
audit => audit flight=0 held=0 ready=1 handed=3 read=0 deleted=2 off=0 live=0 entries=4 waiting=1 written=1
push => removed 3 count=1
push => nothing ready
audit => audit flight=0 held=0 ready=1 handed=3 read=0 deleted=2 off=0 live=0 entries=5 waiting=0 written=2
"#,
    r#"# A deletion after a read removes only what the read hasn't removed.
user "Cy" => user 3
sub 3 1 on => ok
send 1 1 "lunch" "@**Cy** @**Ben**" => sent 1 deal 0
dealt 0 2=idle,3=idle
push => pushed 2 message=1 mention
push => pushed 3 message=1 mention
read 3 1 => ok
delete 1 1 => ok
push => removed 3 count=1
push => removed 2 count=1
push => nothing ready
audit => audit flight=0 held=0 ready=0 handed=2 read=1 deleted=1 off=0 live=0 entries=4 waiting=0 written=2
"#,
    r#"# Of three mails that wait, one was read and one deleted.
send 1 1 "lunch" "one @**Ben**" => sent 1 deal 0
dealt 0 2=idle
send 1 1 "lunch" "two @**Ben**" => sent 2 deal 1
dealt 1 2=idle
send 1 1 "lunch" "three @**Ben**" => sent 3 deal 2
dealt 2 2=idle
delete 1 2 => ok
read 2 1 => ok
at 220
mail => mailed 2 entries=1 dropped=2
push => dropped 2 message=1 read
push => dropped 2 message=2 deleted
push => pushed 2 message=3 mention
audit => audit flight=0 held=0 ready=0 handed=2 read=2 deleted=2 off=0 live=0 entries=2 waiting=0 written=0
"#,
    r#"# What a live queue cleared is counted as deleted once it is deleted.
register 2 => queue 1:1
beat 2 => ok
send 1 1 "lunch" "hi @**Ben**" => sent 1 deal 0
dealt 0 2=live
ack 2 1:1 0 => items -
absorb => absorbed cleared 2 0 by 1:1
delete 1 1 => ok
audit => audit flight=0 held=0 ready=0 handed=0 read=0 deleted=2 off=0 live=0 entries=0 waiting=0 written=0
"#,
    r#"# Who sent a message that is deleted takes no part by it from then on.
send 2 1 "x" "one" => sent 1 deal 0
send 2 1 "X" "two" => sent 2 deal 1
dealt 0 -
dealt 1 -
delete 2 1 => ok
send 1 1 "x" "@**topic**" => sent 3 deal 2
dealt 2 2=idle
delete 2 2 => ok
send 1 1 "x" "@**topic**" => sent 4 deal 3
dealt 3 -
ready 2
send 2 1 "x" "three" => sent 5 deal 4
dealt 4 -
send 1 1 "x" "@**topic**" => sent 6 deal 5
dealt 5 2=idle
ready 4
"#,
];

#[test]
fn a_deleted_message_is_not_mailed_and_its_pushes_are_dropped_or_removed(
    rt: HostRuntime,
) -> Result<(), Fail> {
    for rows in DELETIONS {
        expect_counted(&rt, rows)?;
    }
    Ok(())
}

/// Behind the opening, reads and deletions that are granted or refused.
pub const READERS: [&str; 2] = [
    r#"# Whom and what a read or a deletion names, in the order of the refusals.
read 9 1 => refused 10
delete 9 1 => refused 10
read 2 7 => refused 12
delete 2 7 => refused 12
read 2 0 => refused 12
send 1 1 "a" "x" => sent 1 deal 0
delete 2 1 => refused 15
read 2 1,7 => refused 12
read 2 1 => ok
sub 1 1 off => ok
delete 1 1 => ok
delete 1 1 => refused 12
delete 2 1 => refused 12
read 2 1 => refused 12
"#,
    r#"# Who received a message may read it: the users of a direct message, and who was subscribed at the send.
user "Cy" => user 3
dm 1 1,2 "x" => sent 1 deal 0
read 3 1 => refused 12
read 2 1 => ok
read 1 1 => ok
dm 1 1 "self" => sent 2 deal 1
read 2 2 => refused 12
read 1 2 => ok
send 1 1 "a" "x" => sent 3 deal 2
sub 2 1 off => ok
sub 3 1 on => ok
read 2 3 => ok
read 3 3 => refused 12
read 2 3,2 => refused 12
"#,
];

#[test]
fn who_sent_a_message_deletes_it_and_who_received_it_reads_it(rt: HostRuntime) -> Result<(), Fail> {
    for rows in READERS {
        expect_opened(&rt, rows)?;
    }
    Ok(())
}
