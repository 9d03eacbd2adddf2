// The spellings of the identifiers of a text, by number.
ghost use Rattle.psdl_directory.specs.inner.Spelt.{AreDistinct};

use crate::number::SpellingNo;
use pss_base::NoMemory;
use std::alloc::Global;
use std::collections::BTreeMap;

/// Spellings by number: two numbers are equal exactly where the spellings are.
#[derive(Drop)]
pub struct Spellings {
    numbers: BTreeMap<Vec<u8>, SpellingNo>,
    ghost distinct: { AreDistinct numbers },
}

impl Spellings {
    ghost use Rattle.std.specs.Prelude.{◌≡◌, ◌<◌, ℕ, List, Some, None, IfOk};
    ghost use Rattle.psdl_directory.specs.Spelled.{number_of, Keeps};

    /// None. It takes no memory.
    pub fn new(alloc: Global) -> Spellings
        ensures { (name : List ℕ) → number_of result name ≡ None }
    {
        Spellings {
            numbers: BTreeMap::new(alloc),
        }
    }

    /// The number of a spelling, where it was noted.
    pub fn number(&self, name: &[u8]) -> Option<SpellingNo>
        ensures { result ≡ number_of self.now name.now }
    {
        match self.numbers.get(name) {
            Some(number) => Some(*number),
            None => None,
        }
    }

    /// More than each of their numbers.
    pub fn len(&self) -> usize
        ensures { (name : List ℕ) (n : ℕ) → number_of self.now name ≡ Some n → n < result }
    {
        self.numbers.len()
    }

    /// Notes a spelling. Answers its number. What was noted keeps its number, also without memory.
    pub fn note(&mut self, alloc: Global, name: &[u8]) -> Result<SpellingNo, NoMemory>
        ensures number { IfOk result (λ n. number_of self.new name.now ≡ Some n) }
        ensures kept { Keeps self.old self.new }
    {
        match self.numbers.get(name) {
            Some(number) => Ok(*number),
            None => {
                let number = SpellingNo::new(self.numbers.len());
                let spelled = name.to_vec(alloc)?;
                self.numbers.insert(spelled, number)?;
                Ok(number)
            }
        }
    }
}
