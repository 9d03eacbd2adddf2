// Names by the numbers of their spellings.
ghost use Rattle.std.specs.Prelude.{◌++◌, ◌∷◌, [], List, ℕ, OnOk};
ghost use Rattle.psdl_directory.specs.Spelled.{Keeps};
ghost use Rattle.psdl_lineage.specs.Descent.{names_of};
ghost use Rattle.psdl_members.specs.inner.Entries.{AreSpelled};

use psdl_directory::{Spelling, Spellings};
use psdl_tree::Identifier;
use pss_base::NoMemory;
use std::alloc::Global;

/// Adds the number of an identifier's spelling. Without memory nothing is said of the numbers and the spellings.
pub fn add_number(
    alloc: Global,
    numbers: &mut Vec<usize>,
    spellings: &mut Spellings,
    identifier: &Identifier,
) -> Result<(), NoMemory>
    ensures spelled { OnOk result ((names : List (List ℕ)) → AreSpelled spellings.old numbers.old.items names → AreSpelled spellings.new numbers.new.items (names ++ identifier.now.name ∷ [])) }
    ensures kept { OnOk result (Keeps spellings.old spellings.new) }
{
    let number = Spelling::AsIs.note(alloc, spellings, identifier.name.as_slice())?;
    numbers.push(number.index())?;
    Ok(())
}

/// Adds the numbers of the spellings of identifiers, in their order. Without memory it is as with one.
pub fn add_numbers(
    alloc: Global,
    numbers: &mut Vec<usize>,
    spellings: &mut Spellings,
    identifiers: &[Identifier],
) -> Result<(), NoMemory>
    ensures spelled { OnOk result ((names : List (List ℕ)) → AreSpelled spellings.old numbers.old.items names → AreSpelled spellings.new numbers.new.items (names ++ names_of identifiers.now)) }
    ensures kept { OnOk result (Keeps spellings.old spellings.new) }
{
    for identifier in identifiers {
        add_number(alloc, numbers, spellings, identifier)?;
    }
    Ok(())
}
