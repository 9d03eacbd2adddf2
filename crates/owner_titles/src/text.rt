// The text of what is told of a commit.
ghost use Rattle.std.specs.Prelude.{◌≡◌, ◌++◌, codes, decimal, IfOk, OnOk};
ghost use Rattle.pss_machine.specs.Moving.{level_text};
ghost use Rattle.owner_titles.specs.Telling.{told_text};

use crate::told::Told;
use itoa::Buffer;
use pss_base::{Bytes, NoMemory};
use pss_machine::Level;
use std::alloc::Global;

// The name of a level.
fn level_name(level: Level) -> &'static [u8]
    ensures { result.now ≡ level_text level }
{
    match level {
        Level::Serializable => b"SERIALIZABLE",
        Level::ReadCommitted => b"READ_COMMITTED",
        Level::Basic => b"BASIC",
    }
}

// A colon, and a part behind it.
fn append_part(out: &mut Bytes, part: &[u8]) -> Result<(), NoMemory>
    ensures { OnOk result (out.new ≡ out.old ++ codes ":" ++ part.now) }
{
    out.push(b':')?;
    out.extend(part)
}

// A colon, and a number behind it.
fn append_number(out: &mut Bytes, number: u32) -> Result<(), NoMemory>
    ensures { OnOk result (out.new ≡ out.old ++ codes ":" ++ decimal number) }
{
    append_part(out, Buffer::new().format(number).as_bytes())
}

// The most bytes behind a name: a level and two numbers, each behind a colon.
const BEHIND_NAME: usize = 37;

/// The text of what is told of a commit: the owner's name, its level, how many data commands it had done, and how many
/// objects it changed, with colons between them.
pub fn told_text(alloc: Global, told: &Told) -> Result<Bytes, NoMemory>
    ensures { IfOk result (λ text. text ≡ told_text told.now) }
{
    let name = told.name.as_slice();
    let mut text = Bytes::with_room(alloc, name.len() + BEHIND_NAME)?;
    text.extend(name)?;
    append_part(&mut text, level_name(told.level))?;
    append_number(&mut text, told.commands)?;
    append_number(&mut text, told.changed)?;
    Ok(text)
}
