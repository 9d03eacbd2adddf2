// A flag for each slot.
ghost use Rattle.std.specs.Prelude.{ℕ, ◌≡◌, ◌+◌, ◌<◌, ◌≤◌, ◌==◌, ◌||◌, false, length, slice_index_or, IfOk};
ghost use Rattle.page_format.specs.Packing.{is_among};
ghost use Rattle.page_format.specs.inner.Marks.{count_marked};

use crate::layout::SLOTS;
use pss_base::NoMemory;
use std::alloc::Global;

/// So many flags, none of them set. `NoMemory`: there was no room for them.
pub fn flags(alloc: Global, count: usize) -> Result<Vec<bool>, NoMemory>
    ensures len { IfOk result (λ flags. length flags.items ≡ count) }
    ensures none { IfOk result (λ flags. (k : ℕ) → slice_index_or flags.items k false ≡ false) }
{
    Ok(vec![in alloc; false; count]?)
}

/// Sets the flag of a slot. A number that is none of a slot sets none.
pub fn mark(marks: &mut [bool], slot: u32)
    requires { length marks.old ≡ 16384 }
    ensures marked { (s : ℕ) → s < 16384 → slice_index_or marks.new s false ≡ ((slot == s) || slice_index_or marks.old s false) }
    ensures few { count_marked marks.new ≤ count_marked marks.old + 1 }
{
    if slot < SLOTS {
        marks[slot as usize] = true;
    }
}

/// Sets the flags of some slots.
pub fn mark_all(marks: &mut [bool], slots: &[u32])
    requires { length marks.old ≡ 16384 }
    ensures marked { (s : ℕ) → s < 16384 → slice_index_or marks.new s false ≡ (is_among s slots.now || slice_index_or marks.old s false) }
    ensures few { count_marked marks.new ≤ count_marked marks.old + length slots.now }
    ensures len { length marks.new ≡ 16384 }
{
    for slot in slots {
        mark(marks, *slot);
    }
}
