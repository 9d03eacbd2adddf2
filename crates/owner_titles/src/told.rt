// What is told of a commit.
ghost use Rattle.std.specs.Prelude.{◌≡◌, List, length, IfOk};
ghost use Rattle.pss_machine.specs.Moving.{commit_text};
ghost use Rattle.pss_catalog.specs.Changes.{Change};
ghost use Rattle.owner_titles.specs.Meaning.{title_of};
ghost use Rattle.owner_titles.specs.Telling.{told_text};

use crate::called::Called;
use pss_base::{Bytes, NoMemory};
use pss_machine::Level;

/// What is told of a commit, kept as values until its text is asked for.
#[derive(Drop)]
pub struct Told {
    /// The owner's name.
    pub name: Bytes,
    /// The owner's level.
    pub level: Level,
    /// How many data commands the owner had done.
    pub commands: u32,
    /// How many objects it changed.
    pub changed: u32,
}

/// What is told of an owner's commit that changes so many objects. It takes memory for the name; `NoMemory` changes nothing.
pub fn told_of(called: &Called, changed: u32) -> Result<Told, NoMemory>
    ensures { (changes : List Change) → length changes ≡ changed → IfOk result (λ told. told_text told ≡ commit_text (title_of called.now) called.now.level changes) }
{
    Ok(Told {
        name: called.name.copy()?,
        level: called.level,
        commands: called.commands,
        changed,
    })
}
