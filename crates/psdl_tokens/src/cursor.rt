// Where a byte stands in a text, by the bytes in front of it.
ghost use Rattle.std.specs.Prelude.{ℕ, List, [], ◌∷◌, ◌++◌, ◌≡◌, ◌≤◌, ◌<◌, ◌+◌, ◌-◌, ◌^◌, length, take};
ghost use Rattle.psdl_tokens.specs.Alphabet.{is_blank};
ghost use Rattle.psdl_tokens.specs.Places.{last_line, place_of, begins_line};

use crate::alphabet::is_blank;
use pss_base::Place;

/// Where a text begins.
pub const START: Place = Place {
    line: 1,
    column: 1,
    offset: 0,
};

// The place behind a byte.
fn behind(place: Place, byte: u8) -> Place
    requires line { place.line < 2 ^ 32 - 1 }
    requires column { place.column < 2 ^ 32 - 1 }
    requires offset { place.offset < 2 ^ 32 - 1 }
    ensures { (front : List ℕ) → place ≡ place_of front → result ≡ place_of (front ++ byte ∷ []) }
{
    if byte == b'\n' {
        return Place {
            line: place.line + 1,
            column: 1,
            offset: place.offset + 1,
        };
    }
    Place {
        line: place.line,
        column: place.column + 1,
        offset: place.offset + 1,
    }
}

/// The place so many bytes further in a text.
pub fn place_behind(text: &[u8], place: Place, size: usize) -> Place
    requires place { place ≡ place_of (take place.offset text.now) }
    requires within { place.offset + size ≤ length text.now }
    requires limit { length text.now < 2 ^ 32 - 2 }
    ensures { result ≡ place_of (take (place.offset + size) text.now) }
{
    let at = place.offset as usize;
    let mut place = place;
    for byte in &text[at..at + size] {
        place = behind(place, *byte);
    }
    place
}

// The bytes behind the last line feed.
fn last_line(front: &[u8]) -> &[u8]
    ensures { result.now ≡ last_line front.now }
{
    let mut start = 0;
    for (i, byte) in front.iter().enumerate() {
        if *byte == b'\n' {
            start = i + 1;
        }
    }
    &front[start..]
}

/// Tells whether only blanks stand in front on the line.
pub(crate) fn begins_line(front: &[u8]) -> bool
    ensures { result ≡ begins_line front.now }
{
    last_line(front).iter().all(|byte| is_blank(*byte))
}
