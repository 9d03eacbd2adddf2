// The numbers of rounds.
ghost use Rattle.std.specs.Prelude.{◌≡◌, ◌++◌, ◌<◌, ◌≤◌, OnOk};
ghost use Rattle.people_demo.specs.Lines.{chosen, following, numbered};

use itoa::Buffer;
use pss_base::{Bytes, NoMemory};

/// The number behind one of a fixed sequence that looks like chance: each is below 2^31.
pub fn following(x: u32) -> u32
    requires { x < 2147483648 }
    ensures is { result ≡ following x }
    ensures below { result < 2147483648 }
{
    let next = (1103515245 * x as u64 + 12345) % 2147483648;
    next as u32
}

/// Which of the earlier people the one of a round gets as boss.
pub fn chosen(x: u32, round: u32) -> u32
    requires later { 2 ≤ round }
    ensures is { result ≡ chosen x round }
    ensures within { result < round }
{
    x % (round - 1) + 1
}

/// Adds words and a number.
pub fn append_numbered(text: &mut Bytes, words: &[u8], number: u32) -> Result<(), NoMemory>
    ensures { OnOk result (text.new ≡ text.old ++ numbered words.now number) }
{
    text.extend(words)?;
    text.extend(Buffer::new().format(number).as_bytes())?;
    Ok(())
}
