//! Fences: lines of a text that stand apart.
ghost use Rattle.std.specs.Prelude.{◌≡◌, ◌==◌, ◌≤◌, length, if◌then◌else◌};
ghost use Rattle.std.specs.List.{suffix_len};
ghost use Rattle.std.specs.Option.{option_map_or};
ghost use Rattle.mention_scan.specs.Fences.{begins_fence, has_only_spaces, is_quote, is_run_alone, mark_length, mark_of, without_outer_spaces};

use crate::run::run_of;

/// How many characters a fence's opening run has at least.
const LEAST_RUN: usize = 3;

/// A fence that is open: its character, the length of its opening run, and whether its word makes it a quote fence.
#[derive(Clone, Copy)]
pub struct Fence {
    pub character: u8,
    pub size: usize,
    pub quotes: bool,
}

impl Fence {
    /// The fence that a line outside fences opens.
    pub fn opened(line: &[u8]) -> Option<Fence>
        ensures { result ≡ (if begins_fence line.now then Some record {
          character = mark_of line.now;
          size = mark_length line.now;
          quotes = is_quote line.now;
        } else None) }
    {
        let character = *line.first()?;
        let size = run_of(character, line);
        if size < LEAST_RUN || !matches!(character, b'`' | b'~') {
            return None;
        }
        let quotes = without_outer_spaces(&line[size..]) == b"quote".as_slice();
        Some(Fence {
            character,
            size,
            quotes,
        })
    }

    /// Whether the line closes the fence.
    pub fn closes(&self, line: &[u8]) -> bool
        ensures { result ≡ is_run_alone self.now.character self.now.size line.now }
    {
        let run = run_of(self.character, line);
        run >= self.size && has_only_spaces(&line[run..])
    }

    /// The fence that is open behind a line that is read where this one is open.
    pub fn behind(current: Option<Fence>, line: &[u8]) -> Option<Fence>
        ensures { result ≡ option_map_or
            (λ fence. if is_run_alone fence.character fence.size line.now then None else Some fence) current
            (if begins_fence line.now then Some record {
              character = mark_of line.now;
              size = mark_length line.now;
              quotes = is_quote line.now;
            } else None) }
    {
        match current {
            None => Fence::opened(line),
            Some(fence) => {
                if fence.closes(line) {
                    None
                } else {
                    Some(fence)
                }
            }
        }
    }
}

/// The bytes without the spaces at their ends.
fn without_outer_spaces(bytes: &[u8]) -> &[u8]
    ensures { result.now ≡ without_outer_spaces bytes.now }
{
    let behind = &bytes[run_of(b' ', bytes)..];
    &behind[..behind.len() - spaces_at_end(behind)]
}

/// Whether these are nothing but spaces.
fn has_only_spaces(bytes: &[u8]) -> bool
    ensures { result ≡ has_only_spaces bytes.now }
{
    bytes.iter().all(|b| *b == b' ')
}

/// How many spaces stand at the end.
fn spaces_at_end(bytes: &[u8]) -> usize
    ensures value { result ≡ suffix_len (λ b. b == 32) bytes.now }
    ensures bound { result ≤ length bytes.now }
{
    let mut end = bytes.len();
    while end > 0 && bytes[end - 1] == b' ' {
        end -= 1;
    }
    bytes.len() - end
}
