// Marks of numbers, which are taken off all at once.
ghost use Rattle.std.specs.Prelude.{◌≡◌, ◌<◌, length, map, true, false, IfOk, slice_index_or, slice_set};
ghost use Rattle.std.proofs.Math.ListN.{replicate};

use pss_base::NoMemory;
use std::alloc::Global;
use std::marker::Model;

/// Which of the numbers below a length are marked: those whose stamp is the present one.
#[derive(Drop)]
pub struct Marks {
    stamps: Vec<usize>,
    present: usize,
}

impl Model for Marks {
    ghost use Rattle.std.specs.Prelude.{List, Bool};
    ghost use Rattle.psdl_lineage.specs.inner.Marking.{marks_of, AreStamped};

    ghost Value = { List Bool };

    ghost view = { λ m. marks_of m.present m.stamps.items };

    ghost invariant = { λ m. AreStamped m.present m.stamps.items };
}

impl Marks {
    /// So many, none of them marked. `NoMemory`: there was no room for them.
    pub fn new(alloc: Global, count: usize) -> Result<Marks, NoMemory>
        ensures { IfOk result (λ marks. marks ≡ replicate count false) }
    {
        Ok(Marks {
            stamps: vec![in alloc; 0; count]?,
            present: 1,
        })
    }

    pub fn has(&self, number: usize) -> bool
        requires { number < length self.now }
        ensures { result ≡ slice_index_or self.now number false }
    {
        self.stamps[number] == self.present
    }

    pub fn mark(&mut self, number: usize)
        requires { number < length self.old }
        ensures { self.new ≡ slice_set self.old number true }
    {
        self.stamps[number] = self.present;
    }

    /// Takes all marks off. It costs no more than one step, but where the stamps begin anew.
    pub fn clear(&mut self)
        ensures { self.new ≡ map (λ _. false) self.old }
    {
        match self.present.checked_add(1) {
            Some(next) => self.present = next,
            None => self.begin_anew(),
        }
    }

    fn begin_anew(&mut self)
        ensures { self.new ≡ map (λ _. false) self.old }
    {
        self.stamps.fill(0);
        self.present = 1;
    }
}
