// Names as they are spelled, and in small letters.
ghost use Rattle.std.specs.Prelude.{◌≡◌, IfOk};
ghost use Rattle.psdl_directory.specs.Lookup.{lower};

use crate::number::SpellingNo;
use crate::spellings::Spellings;
use pss_base::NoMemory;
use std::alloc::Global;

/// How names are compared.
#[derive(Clone, Copy)]
pub enum Spelling {
    AsIs,
    /// But for case.
    Lower,
}

/// A name with its letters small. `NoMemory`: there was no room for it.
pub fn in_small_letters(alloc: Global, name: &[u8]) -> Result<Vec<u8>, NoMemory>
    ensures { IfOk result (λ v. v.items ≡ lower name.now) }
{
    let mut spelled = name.to_vec(alloc)?;
    spelled.make_ascii_lowercase();
    Ok(spelled)
}

impl Spelling {
    ghost use Rattle.std.specs.Prelude.{◌≡◌, Some, IfOk};
    ghost use Rattle.psdl_directory.specs.Spelled.{number_of, Keeps, spelled_by};

    /// Notes a name by what it is compared. Answers its number. What was noted keeps its number, also without memory.
    pub fn note(
        self,
        alloc: Global,
        spellings: &mut Spellings,
        name: &[u8],
    ) -> Result<SpellingNo, NoMemory>
        ensures number { IfOk result (λ n. number_of spellings.new (spelled_by self name.now) ≡ Some n) }
        ensures kept { Keeps spellings.old spellings.new }
    {
        match self {
            Spelling::AsIs => spellings.note(alloc, name),
            Spelling::Lower => {
                let small = in_small_letters(alloc, name)?;
                spellings.note(alloc, &small)
            }
        }
    }

    /// The number of a name by what it is compared, where that was noted.
    /// `NoMemory`: there was no room for the name in small letters.
    pub fn number(
        self,
        alloc: Global,
        spellings: &Spellings,
        name: &[u8],
    ) -> Result<Option<SpellingNo>, NoMemory>
        ensures { IfOk result (λ r. r ≡ number_of spellings.now (spelled_by self name.now)) }
    {
        match self {
            Spelling::AsIs => Ok(spellings.number(name)),
            Spelling::Lower => {
                let small = in_small_letters(alloc, name)?;
                Ok(spellings.number(&small))
            }
        }
    }
}
