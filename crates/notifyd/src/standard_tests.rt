//! The adapters over a reader and a writer that fail, that are interrupted, and that pass one byte at a time.
ghost use Rattle.std.specs.Prelude.{◌≡◌, ℕ, ◌≤◌, length, IfOk};
ghost use Rattle.std.specs.Io.{ReadsAtMost, WritesAtMost};
ghost use Rattle.std.specs.Io.KnownBytes.{Keeps, ReadConsumes, WriteAppends};

use super::*;
use crate::standard::MOST_TRIES;
use chat_model::Failed;
use std::io::{ErrorKind, Read, Write};
use std::process::Abort;
use std::test::Fail;

// A stream whose first calls fail in this way, and whose later ones pass one byte each, while some are left.
#[derive(Drop)]
struct Stream {
    failure: ErrorKind,
    failures: u32,
    left: u32,
}

impl Stream {
    fn pass(&mut self) -> io::Result<bool> {
        if self.failures > 0 {
            self.failures -= 1;
            return Err(io::Error::from(self.failure));
        }
        if self.left == 0 {
            return Ok(false);
        }
        self.left -= 1;
        Ok(true)
    }
}

impl Read for Stream {
    fn read(&mut self, buf: &mut [u8]) -> io::Result<usize> {
        if buf.is_empty() || !self.pass()? {
            return Ok(0);
        }
        buf[0] = b'x';
        Ok(1)
    }
}

impl Write for Stream {
    fn write(&mut self, buf: &[u8]) -> io::Result<usize> {
        if buf.is_empty() || !self.pass()? {
            return Ok(0);
        }
        Ok(1)
    }

    fn flush(&mut self) -> io::Result<()> {
        Ok(())
    }
}

// The failures of a stream, and what three calls over it answer: the first two bytes pass, or a failure is answered.
const FIRST_FAILS: [Result<usize, Failed>; 3] = [Err(Failed), Ok(1), Ok(1)];

const NONE_FAILS: [Result<usize, Failed>; 3] = [Ok(1), Ok(1), Ok(1)];

#[test]
fn an_interrupted_call_is_made_again_and_another_failure_is_a_fault(
    rt: HostRuntime,
) -> Result<(), Fail> {
    let rows = [
        (ErrorKind::Interrupted, 0, NONE_FAILS),
        (ErrorKind::Interrupted, 3, NONE_FAILS),
        (ErrorKind::Interrupted, MOST_TRIES - 1, NONE_FAILS),
        (ErrorKind::Interrupted, MOST_TRIES, FIRST_FAILS),
        (ErrorKind::TimedOut, 1, FIRST_FAILS),
    ];
    for (failure, failures, answers) in rows {
        let mut source = StandardSource::new(Stream {
            failure,
            failures,
            left: 3,
        });
        let mut sink = StandardSink::new(Stream {
            failure,
            failures,
            left: 3,
        });
        let mut into = [0; 4];
        for answer in answers {
            assert_eq!(rt; source.read(&mut into), answer);
            assert_eq!(rt; sink.write(b"xxxx"), answer);
        }
    }
    Ok(())
}

// A reader that has nothing left is at its end, and a writer that takes nothing has failed.
#[test]
fn nothing_read_is_the_end_and_nothing_taken_a_fault(rt: HostRuntime) -> Result<(), Fail> {
    let mut source = StandardSource::new(Stream {
        failure: ErrorKind::TimedOut,
        failures: 0,
        left: 0,
    });
    let mut sink = StandardSink::new(Stream {
        failure: ErrorKind::TimedOut,
        failures: 0,
        left: 0,
    });
    assert_eq!(rt; source.read(&mut [0; 4]), Ok(0));
    assert_eq!(rt; sink.write(b"x"), Err(Failed));
    assert_eq!(rt; sink.write(b""), Ok(0));
    Ok(())
}

// What `main` ends with: the status of `run`, over a reader and a writer.
#[test]
fn the_process_ends_with_the_status_of_the_run(rt: HostRuntime) -> Result<(), Fail> {
    let alloc = rt.alloc();
    let rows: [(&str, &[u8], &[u8], u8); 3] = [
        ("play", b"user \"Ada\"\n", b"user 1\n", 0),
        ("play", b"hello\n", b"bad line 1 column 1\n", 2),
        (
            "serve",
            b"",
            b"usage: notifyd play [--config PATH] | audit [--config PATH] | sample N SEED\n",
            1,
        ),
    ];
    for (word, script, answers, status) in rows {
        let words = vec![in alloc; Text::from_str(alloc, word)?]?;
        let mut written: Vec<u8> = Vec::new(alloc);
        let ended = run_over(alloc, words.as_slice(), script, &mut written);
        assert_eq!(rt; ended, ExitCode::from(status));
        assert_eq!(rt; written.as_slice(), answers);
    }
    Ok(())
}
