//! Runs of one character.
ghost use Rattle.std.specs.Prelude.{◌≡◌, ◌<◌, ◌≤◌, length};
ghost use Rattle.mention_scan.specs.Fences.{run_of};
ghost use Rattle.mention_scan.specs.Division.{nearest_run};

/// How often the character stands at the beginning of these bytes.
pub fn run_of(character: u8, bytes: &[u8]) -> usize
    ensures value { result ≡ run_of character bytes.now }
    ensures bound { result ≤ length bytes.now }
{
    for (i, b) in bytes.iter().enumerate() {
        if *b != character {
            return i;
        }
    }
    bytes.len()
}

/// Where the nearest run of exactly `n` backquotes stands. A search that fails goes to the end of the line,
/// and none for that `n` follows it in the line, since no run of that length is left.
pub fn nearest_run(n: usize, bytes: &[u8]) -> Option<usize>
    requires some { 0 < n }
    ensures { result ≡ nearest_run n bytes.now }
{
    let mut place = 0;
    while place < bytes.len() {
        let run = run_of(b'`', &bytes[place..]);
        if run == n {
            return Some(place);
        }
        place += run + 1;
    }
    None
}
