// Where two shapes differ first.
ghost use Rattle.std.specs.Prelude.{◌≡◌, ◌↔◌, ◌+◌, ◌-◌, ◌<◌, ◌≤◌, IsTrue, length, true, MatchOption};
ghost use Rattle.pss_recovery.specs.Shapes.{DifferAt, begins_home};
ghost use Rattle.pss_recovery.specs.inner.Lines.{EndsAt, IsNext, line_at, starts_at};

use crate::octets::behind;

// What the line of a home begins with.
const HOME: &[u8] = b"home ";

// The end of a line.
const LINE_END: u8 = b'\n';

// Whether the octets begin with the line of a home.
fn begins_home(octets: &[u8]) -> bool
    ensures { result ≡ begins_home octets.now }
{
    octets.starts_with(HOME) && octets[HOME.len()..].contains(&LINE_END)
}

// Whether a line begins at a place.
fn begins_line(octets: &[u8], at: usize) -> bool
    requires { at < length octets.now }
    ensures { result ≡ line_at true octets.now at }
{
    at == 0 || octets[at - 1] == LINE_END
}

// Whether the line of a home begins at a place.
fn starts_at(octets: &[u8], at: usize) -> bool
    requires { at < length octets.now }
    ensures { result ≡ starts_at true octets.now at }
{
    begins_line(octets, at) && begins_home(behind(octets, at))
}

// The first place from one on where the line of a home begins, or the end.
fn next_home(octets: &[u8], from: usize) -> usize
    requires { from ≤ length octets.now }
    ensures { IsNext octets.now from result }
{
    for at in from..octets.len() {
        if starts_at(octets, at) {
            return at;
        }
    }
    octets.len()
}

// Where the lines of the first home end.
fn lines_end(octets: &[u8]) -> usize
    ensures { EndsAt octets.now result }
{
    let first = next_home(octets, 0);
    if first == octets.len() {
        return first;
    }
    next_home(octets, first + 1)
}

// Whether the octets are the same.
fn are_same(octets: &[u8], others: &[u8]) -> bool
    ensures { IsTrue result ↔ (octets.now ≡ others.now) }
{
    octets == others
}

/// The number of the first home whose lines differ, or are in one shape alone, where there is one. It takes time in
/// the shapes' lengths, and no memory.
pub fn first_difference(shape: &[u8], other: &[u8]) -> Option<u32>
    requires { length shape.now ≤ 65536 }
    ensures { MatchOption result (shape.now ≡ other.now) (DifferAt shape.now other.now) }
{
    let mut at = 0;
    let mut home = 1;
    'homes: loop {
        let own = behind(shape, at);
        let their = behind(other, at);
        let end = lines_end(own);
        if !are_same(&own[..end], &their[..lines_end(their)]) {
            return Some(home);
        }
        if end == 0 {
            return None;
        }
        at += end;
        home += 1;
    }
}
