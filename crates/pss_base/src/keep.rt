// The front of some bytes is kept.
ghost use Rattle.std.specs.Prelude.{◌≡◌, ◌++◌, OnOk, OnErr, take};

use crate::{Bytes, NoMemory};

/// Adds bytes, but at most so many. Without memory the text is as before.
pub fn extend_within(text: &mut Bytes, room: usize, bytes: &[u8]) -> Result<(), NoMemory>
    ensures ok { OnOk result (text.new ≡ text.old ++ take room bytes.now) }
    ensures err { OnErr result (text.new ≡ text.old) }
{
    text.extend(&bytes[..bytes.len().min(room)])
}
