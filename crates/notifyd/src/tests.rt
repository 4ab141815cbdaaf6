//! Each public call once, with ample memory, and worked values.
use super::*;
use chat_model::{
    Answer, Cause, ChannelId, Counts, DealNo, Failed, GroupId, List, MessageId, Refusal, Request,
    RowKey, Trigger, UserId,
};
use office::{Absorbed, MailAnswer, PushAnswer};
use std::process::Abort;
use std::test::Fail;

const SCRIPT: &[u8; 11] = b"user \"Ada\"\n";

#[test]
fn a_source_gives_its_bytes_in_pieces(rt: HostRuntime) -> Result<(), Fail> {
    let alloc = rt.alloc();
    let mut failing = List::new(alloc);
    failing.push(2)?;
    let mut source = MemorySource::new(List::from(SCRIPT.to_vec(alloc)?), 4, failing);
    let mut piece = [0u8; 8];
    assert_eq!(rt; source.read(&mut piece), Ok(4));
    assert_eq!(rt; &piece[..4], b"user".as_slice());
    assert_eq!(rt; source.read(&mut piece), Err(Failed));
    assert_eq!(rt; source.read(&mut piece), Ok(4));
    assert_eq!(rt; source.read(&mut piece), Ok(3));
    assert_eq!(rt; source.read(&mut piece), Ok(0));
    Ok(())
}

#[test]
fn a_sink_takes_what_its_room_holds(rt: HostRuntime) -> Result<(), Fail> {
    let alloc = rt.alloc();
    let mut failing = List::new(alloc);
    failing.push(1)?;
    let mut sink = MemorySink::new(alloc, 8, failing)?;
    assert_eq!(rt; sink.write(b"user"), Err(Failed));
    assert_eq!(rt; sink.write(b"user 1"), Ok(6));
    assert_eq!(rt; sink.write(b"too long"), Err(Failed));
    assert_eq!(rt; sink.bytes(), b"user 1".as_slice());
    Ok(())
}

#[test]
fn a_spool_keeps_its_files(rt: HostRuntime) -> Result<(), Fail> {
    let alloc = rt.alloc();
    let mut failing = List::new(alloc);
    failing.push(3)?;
    let mut spool = MemorySpool::new(alloc, failing);
    assert_eq!(rt; spool.put("000000001.mail", b"mail 1"), Ok(()));
    assert_eq!(rt; spool.put("000000001.mail", b"mail 2"), Ok(()));
    assert_eq!(rt;
        spool.put("000000002.mail", b"mail 3"),
        Err(PutFault::Failed)
    );
    assert_eq!(rt; spool.file("000000001.mail"), Some(b"mail 2".as_slice()));
    assert_eq!(rt; spool.file("000000002.mail").is_none(), true);
    Ok(())
}

fn dropped(cause: Cause) -> Reply {
    Reply::Push(PushAnswer::Dropped {
        user: UserId(2),
        message: MessageId(1),
        cause,
    })
}

#[test]
fn replies_have_their_texts(rt: HostRuntime) -> Result<(), Fail> {
    let sent = Answer::Sent {
        message: MessageId(1),
        deal: DealNo(0),
    };
    let mailed = MailAnswer::Mailed {
        user: UserId(2),
        entries: 1,
        dropped: 0,
    };
    let pushed = PushAnswer::Pushed {
        user: UserId(2),
        message: MessageId(3),
        trigger: Trigger::FollowedTopicWildcard,
    };
    let removed = PushAnswer::Removed {
        user: UserId(2),
        count: 200,
    };
    let counts = Counts {
        flight: 0,
        held: 1,
        ready: 4,
        handed: 6,
        read: 3,
        deleted: 7,
        off: 8,
        live: 2,
        entries: 5,
        waiting: 9,
        written: 10,
    };
    let rows = [
        (Reply::Answer(Answer::User(UserId(1))), "user 1\n"),
        (Reply::Answer(Answer::Channel(ChannelId(1))), "channel 1\n"),
        (Reply::Answer(Answer::Group(GroupId(1))), "group 1\n"),
        (Reply::Answer(Answer::Done), "ok\n"),
        (Reply::Answer(sent), "sent 1 deal 0\n"),
        (Reply::Mail(mailed), "mailed 2 entries=1 dropped=0\n"),
        (Reply::Mail(MailAnswer::NotDue(Some(220))), "not due 220\n"),
        (Reply::Mail(MailAnswer::NotDue(None)), "not due -\n"),
        (
            Reply::Push(pushed),
            "pushed 2 message=3 followed-topic-wildcard\n",
        ),
        (Reply::Push(removed), "removed 2 count=200\n"),
        (dropped(Cause::Read), "dropped 2 message=1 read\n"),
        (dropped(Cause::Deleted), "dropped 2 message=1 deleted\n"),
        (dropped(Cause::SwitchedOff), "dropped 2 message=1 off\n"),
        (Reply::Push(PushAnswer::NothingReady), "nothing ready\n"),
        (
            Reply::Audit(counts),
            "audit flight=0 held=1 ready=4 handed=6 read=3 deleted=7 off=8 live=2 entries=5 waiting=9 written=10\n",
        ),
        (Reply::Refused(Refusal::NoUser), "refused 10\n"),
        (
            Reply::Refused(Refusal::TooMany { limit: 10_000 }),
            "refused 23 limit 10000\n",
        ),
        (Reply::Refused(Refusal::BadName), "refused 25\n"),
        (
            Reply::Absorbed(Absorbed::NothingWaiting),
            "nothing waiting\n",
        ),
        (Reply::KeeperFault, "fault keeper\n"),
        (Reply::OutOfMemory, "out of memory\n"),
    ];
    for (reply, text) in rows {
        expect_text(&rt, &reply, text)?;
    }
    Ok(())
}

// A reply that is longer than what waits at a time.
#[test]
fn a_long_reply_is_written_in_pieces(rt: HostRuntime) -> Result<(), Fail> {
    let most = u64::MAX;
    let counts = Counts {
        flight: most,
        held: most,
        ready: most,
        handed: most,
        read: most,
        deleted: most,
        off: most,
        live: most,
        entries: most,
        waiting: most,
        written: most,
    };
    let front =
        "audit flight=18446744073709551615 held=18446744073709551615 ready=18446744073709551615 handed=18446744073709551615 read=";
    let alloc = rt.alloc();
    let text = format!(in alloc;
        "{front}{most} deleted={most} off={most} live={most} entries={most} waiting={most} written={most}\n"
    )?;
    expect_text(&rt, &Reply::Audit(counts), text.as_str())?;
    let mut failing = List::new(alloc);
    failing.push(2)?;
    let mut sink = MemorySink::new(alloc, 320, failing)?;
    assert_eq!(rt; write_reply(&mut sink, &Reply::Audit(counts)), Err(Failed));
    assert_eq!(rt; sink.bytes(), front.as_bytes());
    Ok(())
}

// The reply has this text, printed and written.
fn expect_text<R: Abort + AllocGlobal>(rt: &R, reply: &Reply, text: &str) -> Result<(), Fail> {
    let printed = print_reply(rt.alloc(), reply)?;
    assert_eq!(rt; printed.as_str(), text);
    let mut sink = MemorySink::new(rt.alloc(), 320, List::new(rt.alloc()))?;
    assert_eq!(rt; write_reply(&mut sink, reply), Ok(()));
    assert_eq!(rt; sink.bytes(), text.as_bytes());
    Ok(())
}

#[test]
fn last_lines_have_their_texts(rt: HostRuntime) -> Result<(), Fail> {
    let bad = LastLine::BadLine { line: 2, column: 8 };
    let mut sink = MemorySink::new(rt.alloc(), 256, List::new(rt.alloc()))?;
    assert_eq!(rt; write_last_line(&mut sink, &bad), Ok(()));
    assert_eq!(rt; write_last_line(&mut sink, &LastLine::SourceFault), Ok(()));
    assert_eq!(rt; write_last_line(&mut sink, &LastLine::TooLong), Ok(()));
    let message = LastLine::Disagree(RowKey::Message(MessageId(2)));
    assert_eq!(rt; write_last_line(&mut sink, &message), Ok(()));
    assert_eq!(rt; write_all(&mut sink, b"end"), Ok(()));
    assert_eq!(rt;
        sink.bytes(),
        b"bad line 2 column 8\nfault source\nscript too long\ndisagree messages 2\nend".as_slice()
    );
    Ok(())
}

#[test]
fn bad_lines_have_their_columns(rt: HostRuntime) -> Result<(), Fail> {
    let rows: [(&[u8], Column); 49] = [
        (b"at", 3),
        (b"hello", 1),
        (b"user \"Ada", 6),
        (b"send 1 one \"a\" \"x\"", 8),
        (b"at 137438953472\n", 4),
        (b"at 1 2\r\n", 6),
        (b"user \"a\"x\n", 6),
        (b" # x\n", 2),
        (b"user \"\xff\"\n", 7),
        (b"sub 1 2 yes\n", 9),
        (b"group \"ops\" 2,\n", 13),
        (b"group \"ops\"\n", 12),
        (b"group \"ops\" 1, 2\n", 13),
        (b"member 1 2\n", 11),
        (b"member 1 2 on off\n", 15),
        (b"audit now\n", 7),
        (b"register\n", 9),
        (b"ack 2 1:1\n", 10),
        (b"ack 2 1-1 none\n", 7),
        (b"ack 2 1:1:1 none\n", 7),
        (b"ack 2 1:1 x\n", 11),
        (b"leave 2 :1\n", 9),
        (b"deal 1\n", 6),
        (b"push 2\n", 6),
        (b"absorb all\n", 8),
        (b"bot Cy\n", 5),
        (b"set 2 periods 5\n", 7),
        (b"set 2 period\n", 13),
        (b"set 2 period on\n", 14),
        (b"set 2 period -5\n", 14),
        (b"set 2 period 00000000000000000300\n", 14),
        (b"set 2 period 300 s\n", 18),
        (b"set 2 wildcards default\n", 17),
        (b"set 2 wildcards 1\n", 17),
        (b"chan 2 1 muted default\n", 16),
        (b"chan 2 1 wildcard on\n", 10),
        (b"policy 2 1 \"x\" follow\n", 16),
        (b"policy 2 1 \"x\"\n", 15),
        (b"mute 1 2 on 3\n", 13),
        (b"dm 1 - \"x\"\n", 6),
        (b"dm 1 2,3 x\n", 10),
        (b"delete 1\n", 9),
        (b"delete 1 2 3\n", 12),
        (b"delete one 2\n", 8),
        (b"read 2\n", 7),
        (b"read 2 -\n", 8),
        (b"read 2 1, 2\n", 8),
        (b"read 2 1 2\n", 10),
        (b"read x 1\n", 6),
    ];
    for (bytes, column) in rows {
        match read_line(rt.alloc(), bytes) {
            Err(fault) => assert_eq!(rt; fault, LineFault::BadLine { column }),
            Ok(_) => panic!(rt; "the line was read"),
        }
    }
    Ok(())
}

#[test]
fn lines_are_read(rt: HostRuntime) -> Result<(), Fail> {
    let alloc = rt.alloc();
    assert!(rt; matches!(&read_line(alloc, b"  \r\n"), Ok(Line::Nothing)));
    assert!(rt; matches!(&read_line(alloc, b"# audit\n"), Ok(Line::Nothing)));
    assert!(rt; matches!(&read_line(alloc, b" mail "), Ok(Line::Mail)));
    assert!(rt; matches!(&read_line(alloc, b"push\r\n"), Ok(Line::Push)));
    assert!(rt; matches!(&read_line(alloc, b"audit\n"), Ok(Line::Audit)));
    Ok(())
}

#[test]
fn a_request_is_read(rt: HostRuntime) -> Result<(), Fail> {
    match read_line(
        rt.alloc(),
        b"send 1 2 \"lunch\" \"say \\\"hi\\\" @**Ben**\"\n",
    ) {
        Ok(
            Line::Asked(
                Request::Send {
                    sender,
                    channel,
                    topic,
                    text,
                },
            ),
        ) => {
            assert_eq!(rt; sender, UserId(1));
            assert_eq!(rt; channel, ChannelId(2));
            assert_eq!(rt; topic.as_str(), "lunch");
            assert_eq!(rt; text.as_str(), "say \"hi\" @**Ben**");
        }
        _ => panic!(rt; "the line was not read"),
    }
    Ok(())
}

#[test]
fn a_group_is_read_with_its_list_as_written(rt: HostRuntime) -> Result<(), Fail> {
    match read_line(rt.alloc(), b"group \"ops\" 2,1,2\n") {
        Ok(Line::Asked(Request::AddGroup { name, members })) => {
            assert_eq!(rt; name.as_str(), "ops");
            let written = [UserId(2), UserId(1), UserId(2)];
            assert_eq!(rt; members.as_slice(), written.as_slice());
            Ok(())
        }
        _ => panic!(rt; "the line was not read"),
    }
}

#[test]
fn a_read_is_read_with_its_list_as_written(rt: HostRuntime) -> Result<(), Fail> {
    match read_line(rt.alloc(), b"read 2 3,1,3\n") {
        Ok(Line::Asked(Request::Read { user, messages })) => {
            assert_eq!(rt; user, UserId(2));
            let written = [MessageId(3), MessageId(1), MessageId(3)];
            assert_eq!(rt; messages.as_slice(), written.as_slice());
            Ok(())
        }
        _ => panic!(rt; "the line was not read"),
    }
}

#[test]
fn a_deletion_is_read(rt: HostRuntime) -> Result<(), Fail> {
    match read_line(rt.alloc(), b" delete 1 007\r\n") {
        Ok(Line::Asked(Request::Delete { user, message })) => {
            assert_eq!(rt; user, UserId(1));
            assert_eq!(rt; message, MessageId(7));
            Ok(())
        }
        _ => panic!(rt; "the line was not read"),
    }
}
