// Lists of numbers, by number.
ghost use Rattle.psdl_directory.specs.inner.Spelt.{AreDistinct};

use pss_base::NoMemory;
use std::alloc::Global;
use std::collections::BTreeMap;

/// Lists by number: two numbers are equal exactly where the lists are.
#[derive(Drop)]
pub struct ListNumbers {
    numbers: BTreeMap<Vec<usize>, usize>,
    ghost distinct: { AreDistinct numbers },
}

impl ListNumbers {
    ghost use Rattle.std.specs.Prelude.{◌≡◌, ◌<◌, ℕ, List, Some, None, IfOk};
    ghost use Rattle.psdl_members.specs.inner.ListNumbered.{list_number, KeepsLists};

    /// None. It takes no memory.
    pub fn new(alloc: Global) -> ListNumbers
        ensures { (list : List ℕ) → list_number result list ≡ None }
    {
        ListNumbers {
            numbers: BTreeMap::new(alloc),
        }
    }

    /// More than each of their numbers.
    pub fn len(&self) -> usize
        ensures { (list : List ℕ) (n : ℕ) → list_number self.now list ≡ Some n → n < result }
    {
        self.numbers.len()
    }

    /// Notes a list. Answers its number. What was noted keeps its number, also without memory.
    pub fn note(&mut self, list: Vec<usize>) -> Result<usize, NoMemory>
        ensures number { IfOk result (λ n. list_number self.new list.items ≡ Some n) }
        ensures kept { KeepsLists self.old self.new }
    {
        match self.numbers.get(list.as_slice()) {
            Some(number) => Ok(*number),
            None => {
                let number = self.numbers.len();
                self.numbers.insert(list, number)?;
                Ok(number)
            }
        }
    }
}
