//! Whole scripts with reads: what they bar before it is ready, before its turn and after it.
use crate::preference_tests::expect_counted;
use std::test::Fail;

/// Each goes behind the opening, with `ready N` and `dealt K LIST` for the lines that they stand for.
pub const READS: [&str; 16] = [
    r#"# A read before the deal: the deal still names the user, and nothing becomes ready.
send 1 1 "lunch" "hi @**Ben**" => sent 1 deal 0
read 2 1 => ok
audit => audit flight=0 held=0 ready=0 handed=0 read=2 deleted=0 off=0 live=0 entries=0 waiting=0 written=0
dealt 0 2=idle
push => nothing ready
mail => not due -
audit => audit flight=0 held=0 ready=0 handed=0 read=2 deleted=0 off=0 live=0 entries=0 waiting=0 written=0
"#,
    r#"# A read between the deal and its absorption.
send 1 1 "lunch" "hi @**Ben**" => sent 1 deal 0
deal => dealt 0 2=idle
read 2 1 => ok
absorb => absorbed dealt 0
push => nothing ready
mail => not due -
audit => audit flight=0 held=0 ready=0 handed=0 read=2 deleted=0 off=0 live=0 entries=0 waiting=0 written=0
"#,
    r#"# A read message is neither mailed nor pushed: what was ready is dropped at its turn.
send 1 1 "lunch" "hi @**Ben**" => sent 1 deal 0
dealt 0 2=idle
at 200
read 2 1 => ok
at 220
mail => mailed 2 entries=0 dropped=1
push => dropped 2 message=1 read
push => nothing ready
audit => audit flight=0 held=0 ready=0 handed=0 read=2 deleted=0 off=0 live=0 entries=0 waiting=0 written=0
"#,
    r#"# A read after the mail turn drops the push alone, and removes nothing.
send 1 1 "lunch" "hi @**Ben**" => sent 1 deal 0
dealt 0 2=idle
at 220
mail => mailed 2 entries=1 dropped=0
read 2 1 => ok
mail => not due -
push => dropped 2 message=1 read
push => nothing ready
audit => audit flight=0 held=0 ready=0 handed=1 read=1 deleted=0 off=0 live=0 entries=1 waiting=0 written=0
"#,
    r#"# A read after the push turn removes the push, once.
send 1 1 "lunch" "hi @**Ben**" => sent 1 deal 0
dealt 0 2=idle
push => pushed 2 message=1 mention
read 2 1 => ok
audit => audit flight=0 held=0 ready=0 handed=1 read=1 deleted=0 off=0 live=0 entries=1 waiting=1 written=0
push => removed 2 count=1
read 2 1 => ok
delete 1 1 => ok
push => nothing ready
audit => audit flight=0 held=0 ready=0 handed=1 read=1 deleted=0 off=0 live=0 entries=2 waiting=0 written=1
"#,
    r#"# A second read before the removal's turn makes no other one.
send 1 1 "lunch" "hi @**Ben**" => sent 1 deal 0
dealt 0 2=idle
push => pushed 2 message=1 mention
read 2 1 => ok
read 2 1 => ok
delete 1 1 => ok
audit => audit flight=0 held=0 ready=0 handed=1 read=1 deleted=0 off=0 live=0 entries=1 waiting=1 written=0
push => removed 2 count=1
push => nothing ready
audit => audit flight=0 held=0 ready=0 handed=1 read=1 deleted=0 off=0 live=0 entries=2 waiting=0 written=1
"#,
    r#"# Who isn't concerned changes nothing: another recipient, the sender, and who was no recipient.
user "Cy" => user 3
sub 3 1 on => ok
send 1 1 "lunch" "hi @**Ben**" => sent 1 deal 0
user "Dee" => user 4
sub 4 1 on => ok
read 3 1 => ok
read 4 1 => refused 12
read 1 1 => ok
dealt 0 2=idle
ready 2
push => pushed 2 message=1 mention
read 3 1 => ok
read 1 1 => ok
push => nothing ready
at 220
mail => mailed 2 entries=1 dropped=0
audit => audit flight=0 held=0 ready=0 handed=2 read=0 deleted=0 off=0 live=0 entries=2 waiting=0 written=0
"#,
    r#"# What a user sent owes the user nothing, and a read of it bars nobody's notice.
send 1 1 "lunch" "one @**Ben**" => sent 1 deal 0
send 2 1 "lunch" "two @**Ada**" => sent 2 deal 1
read 1 1 => ok
audit => audit flight=4 held=0 ready=0 handed=0 read=0 deleted=0 off=0 live=0 entries=0 waiting=0 written=0
read 1 2,1 => ok
audit => audit flight=2 held=0 ready=0 handed=0 read=2 deleted=0 off=0 live=0 entries=0 waiting=0 written=0
dealt 0 2=idle
dealt 1 1=idle
push => pushed 2 message=1 mention
push => nothing ready
audit => audit flight=0 held=0 ready=1 handed=1 read=2 deleted=0 off=0 live=0 entries=1 waiting=0 written=0
"#,
    r#"# What a live queue cleared is counted as read once it is read.
register 2 => queue 1:1
beat 2 => ok
send 1 1 "lunch" "hi @**Ben**" => sent 1 deal 0
dealt 0 2=live
ack 2 1:1 0 => items -
absorb => absorbed cleared 2 0 by 1:1
audit => audit flight=0 held=0 ready=0 handed=0 read=0 deleted=0 off=0 live=2 entries=0 waiting=0 written=0
read 2 1 => ok
audit => audit flight=0 held=0 ready=0 handed=0 read=2 deleted=0 off=0 live=0 entries=0 waiting=0 written=0
push => nothing ready
mail => not due -
"#,
    r#"# What was read before a miss doesn't become ready by it.
register 2 => queue 1:1
beat 2 => ok
send 1 1 "lunch" "hi @**Ben**" => sent 1 deal 0
dealt 0 2=live
audit => audit flight=0 held=2 ready=0 handed=0 read=0 deleted=0 off=0 live=0 entries=0 waiting=0 written=0
read 2 1 => ok
audit => audit flight=0 held=0 ready=0 handed=0 read=2 deleted=0 off=0 live=0 entries=0 waiting=0 written=0
leave 2 1:1 => ok
absorb => absorbed missed 2 0
push => nothing ready
mail => not due -
audit => audit flight=0 held=0 ready=0 handed=0 read=2 deleted=0 off=0 live=0 entries=0 waiting=0 written=0
"#,
    r#"# A push to who is online is removed, and the mail that is held is cancelled.
set 2 push_online on => ok
register 2 => queue 1:1
beat 2 => ok
send 1 1 "lunch" "hi @**Ben**" => sent 1 deal 0
dealt 0 2=live
push => pushed 2 message=1 mention
read 2 1 => ok
audit => audit flight=0 held=0 ready=0 handed=1 read=1 deleted=0 off=0 live=0 entries=1 waiting=1 written=0
push => removed 2 count=1
leave 2 1:1 => ok
absorb => absorbed missed 2 0
mail => not due -
push => nothing ready
audit => audit flight=0 held=0 ready=0 handed=1 read=1 deleted=0 off=0 live=0 entries=2 waiting=0 written=1
"#,
    r#"# A read keeps the due moment that its mail had set.
send 1 1 "lunch" "one @**Ben**" => sent 1 deal 0
dealt 0 2=idle
read 2 1 => ok
at 150
send 1 1 "lunch" "two @**Ben**" => sent 2 deal 1
dealt 1 2=idle
mail => not due 220
at 220
mail => mailed 2 entries=1 dropped=1
push => dropped 2 message=1 read
push => pushed 2 message=2 mention
audit => audit flight=0 held=0 ready=0 handed=2 read=2 deleted=0 off=0 live=0 entries=2 waiting=0 written=0
"#,
    r#"# What was read before it was ready sets no due moment.
send 1 1 "lunch" "one @**Ben**" => sent 1 deal 0
read 2 1 => ok
dealt 0 2=idle
at 150
send 1 1 "lunch" "two @**Ben**" => sent 2 deal 1
dealt 1 2=idle
mail => not due 270
at 270
mail => mailed 2 entries=1 dropped=0
push => pushed 2 message=2 mention
push => nothing ready
audit => audit flight=0 held=0 ready=0 handed=2 read=2 deleted=0 off=0 live=0 entries=2 waiting=0 written=0
"#,
    r#"# What was switched off at its turn stays so, and what was read before its turn isn't.
send 1 1 "lunch" "one @**Ben**" => sent 1 deal 0
send 1 1 "lunch" "two @**Ben**" => sent 2 deal 1
deal => dealt 0 2=idle
deal => dealt 1 2=idle
absorb => absorbed dealt 0
absorb => absorbed dealt 1
set 2 push_mentions off => ok
set 2 mail_mentions off => ok
push => dropped 2 message=1 off
read 2 1,2 => ok
push => dropped 2 message=2 read
push => nothing ready
at 220
mail => mailed 2 entries=0 dropped=2
audit => audit flight=0 held=0 ready=0 handed=0 read=3 deleted=0 off=1 live=0 entries=0 waiting=0 written=0
"#,
    r#"# A read names messages in any order and repeats them, and its removal names each once.
send 1 1 "lunch" "one @**Ben**" => sent 1 deal 0
dealt 0 2=idle
send 1 1 "lunch" "two @**Ben**" => sent 2 deal 1
dealt 1 2=idle
dm 1 2 "three" => sent 3 deal 2
dealt 2 2=idle
push => pushed 2 message=1 mention
push => pushed 2 message=2 mention
push => pushed 2 message=3 direct
read 2 3,1,3,1 => ok
audit => audit flight=0 held=0 ready=1 handed=3 read=2 deleted=0 off=0 live=0 entries=3 waiting=2 written=0
read 2 2,1 => ok
audit => audit flight=0 held=0 ready=0 handed=3 read=3 deleted=0 off=0 live=0 entries=3 waiting=3 written=0
push => removed 2 count=2
audit => audit flight=0 held=0 ready=0 handed=3 read=3 deleted=0 off=0 live=0 entries=4 waiting=1 written=2
push => removed 2 count=1
push => nothing ready
audit => audit flight=0 held=0 ready=0 handed=3 read=3 deleted=0 off=0 live=0 entries=5 waiting=0 written=3
"#,
    r#"# One read drops what waits and removes what was handed over; a removal stands behind what waited before it.
send 1 1 "lunch" "one @**Ben**" => sent 1 deal 0
dealt 0 2=idle
push => pushed 2 message=1 mention
send 1 1 "lunch" "two @**Ben**" => sent 2 deal 1
dealt 1 2=idle
send 1 1 "lunch" "three @**Ben**" => sent 3 deal 2
dealt 2 2=idle
read 2 1,2 => ok
push => dropped 2 message=2 read
push => pushed 2 message=3 mention
push => removed 2 count=1
push => nothing ready
at 220
mail => mailed 2 entries=1 dropped=2
audit => audit flight=0 held=0 ready=0 handed=3 read=3 deleted=0 off=0 live=0 entries=4 waiting=0 written=1
"#,
];

#[test]
fn a_read_message_is_not_mailed_and_its_push_is_dropped_or_removed(
    rt: HostRuntime,
) -> Result<(), Fail> {
    for rows in READS {
        expect_counted(&rt, rows)?;
    }
    Ok(())
}
