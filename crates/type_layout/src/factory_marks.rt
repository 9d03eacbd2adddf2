// Marks on declarations that have no factory of a name.
use pss_base::NoMemory;
use std::alloc::Global;

/// All in front of the first are marked. Those behind it have room for a mark.
#[derive(Drop)]
pub(crate) struct Marks {
    first: usize,
    behind: Vec<bool>,
}

impl Marks {
    ghost use Rattle.std.specs.Prelude.{ℕ, ◌≡◌, nat_lt, IfOk};
    ghost use Rattle.type_layout.specs.inner.Marks.{is_marked, IsMarkedToo};

    /// Marks on all in front of the first, and room for marks on those up to the end.
    pub(crate) fn new(alloc: Global, first: usize, end: usize) -> Result<Marks, NoMemory>
        ensures { IfOk result (λ marks. (n : ℕ) → is_marked marks n ≡ nat_lt n first) }
    {
        let behind = vec![in alloc; false; end.saturating_sub(first)]?;
        Ok(Marks { first, behind })
    }

    /// Whether one is marked.
    pub(crate) fn has(&self, number: usize) -> bool
        ensures { result ≡ is_marked self.now number }
    {
        if number < self.first {
            return true;
        }
        matches!(self.behind.get(number - self.first), Some(true))
    }

    /// Marks one, where there is room.
    pub(crate) fn put(&mut self, number: usize)
        ensures { IsMarkedToo (is_marked self.old) (is_marked self.new) number }
    {
        if number < self.first {
            return;
        }
        let place = number - self.first;
        if place < self.behind.len() {
            self.behind[place] = true;
        }
    }
}
