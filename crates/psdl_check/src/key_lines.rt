// How far the lines of a home's keys reach in the shape.
ghost use Rattle.std.specs.Prelude.{◌≡◌, ◌+◌, length};
ghost use Rattle.type_layout.specs.ShapeText.{key_line};
ghost use Rattle.psdl_standings.specs.TextLengths.{cut};
ghost use Rattle.psdl_check.specs.inner.Keyed.{keyed};

use crate::line_lengths::key_line_length;
use psdl_standings::TextLength;
use type_layout::{KeyList, KeyNo};

/// With the line of a key behind what stands in front, where the key is there.
pub(crate) fn with_key(keys: &KeyList, number: KeyNo, front: TextLength) -> TextLength
    ensures { result.0 ≡ cut (front.0 + length (key_line (keyed keys.now) number)) }
{
    match keys.as_slice().get(number.0 as usize) {
        Some(key) => {
            let line = key_line_length(key.name.as_slice(), key.home, key.members.as_slice());
            front.followed_by(line)
        }
        None => front.with(0),
    }
}
