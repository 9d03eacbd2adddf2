// A search for a factory: a walk over those from which a home derives, each behind those from which it derives itself.
use crate::factory_marks::Marks;
use pss_base::NoMemory;
use std::alloc::Global;

/// A declaration on the way, and how many of those from which it derives were taken.
#[derive(Clone, Copy)]
pub(crate) struct Step {
    pub number: usize,
    pub next: usize,
}

impl Step {
    ghost use Rattle.std.specs.Prelude.{◌≡◌, ◌<◌, IfSome, slice_get};

    /// The next to be taken.
    pub(crate) fn base(self, bases: &[usize]) -> Option<usize>
        ensures base { result ≡ slice_get bases.now self.next }
        ensures next { IfSome result (λ _. self.next < usize.MAX) }
    {
        bases.get(self.next).copied()
    }
}

/// The declarations on the way, the outermost first, and those that were left: they have no such factory.
#[derive(Drop)]
pub(crate) struct Search {
    way: Vec<Step>,
    left: Marks,
}

impl Search {
    ghost use Rattle.std.specs.Prelude.{◌≡◌, ◌∷◌, ◌<◌, [], ℕ, nat_lt, IfOk, OnOk};
    ghost use Rattle.type_layout.specs.Schemas.{given};
    ghost use Rattle.type_layout.specs.inner.Marks.{is_marked, IsMarkedToo};
    ghost use Rattle.type_layout.specs.inner.Searches.{steps_of, is_entered, taken};

    /// Begins at a home, where those in front of the first have no such factory.
    pub(crate) fn new(alloc: Global, number: usize, first: usize) -> Result<Search, NoMemory>
        ensures way { IfOk result (λ s. steps_of s ≡ record { number = number; next = 0 } ∷ []) }
        ensures left { IfOk result (λ s. (n : ℕ) → is_marked s.left n ≡ nat_lt n first) }
    {
        let mut search = Search {
            way: Vec::new(alloc),
            left: Marks::new(alloc, first, number)?,
        };
        search.way.push(Step { number, next: 0 })?;
        Ok(search)
    }

    /// Takes the innermost step.
    pub(crate) fn next(&mut self) -> Option<Step>
        ensures way { steps_of self.old ≡ given result [] (λ s. s ∷ steps_of self.new) }
        ensures left { self.new.left ≡ self.old.left }
    {
        self.way.pop()
    }

    // Whether one that a step takes is still to be walked.
    fn is_entered(&self, step: Step, base: usize) -> bool
        ensures { result ≡ is_entered (is_marked self.now.left) step base }
    {
        base < step.number && !self.left.has(base)
    }

    /// Goes on from a step to the next from which it derives.
    pub(crate) fn take(&mut self, step: Step, base: usize) -> Result<(), NoMemory>
        requires { step.next < usize.MAX }
        ensures way { OnOk result (steps_of self.new ≡ taken (is_marked self.old.left) step base (steps_of self.old)) }
        ensures left { self.new.left ≡ self.old.left }
    {
        let is_entered = self.is_entered(step, base);
        self.way.push(Step {
            number: step.number,
            next: step.next + 1,
        })?;
        if is_entered {
            self.way.push(Step {
                number: base,
                next: 0,
            })?;
        }
        Ok(())
    }

    /// Leaves one that has no such factory.
    pub(crate) fn leave(&mut self, number: usize)
        ensures way { steps_of self.new ≡ steps_of self.old }
        ensures left { IsMarkedToo (is_marked self.old.left) (is_marked self.new.left) number }
    {
        self.left.put(number);
    }
}
