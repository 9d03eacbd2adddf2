// Slots that a root does not name.
ghost use Rattle.std.specs.Prelude.{◌≡◌, ◌+◌, ◌<◌, ◌≤◌, length, IfOk};
ghost use Rattle.page_format.specs.Packing.{AreLeastFree};
ghost use Rattle.page_format.specs.inner.Marks.{count_marked};
ghost use Rattle.page_format.specs.inner.Freeing.{AreLeastUnmarked};

use crate::layout::SLOTS;
use crate::marks::{flags, mark_all};
use crate::slots::Slots;
use pss_base::NoMemory;
use std::alloc::Global;

/// The least slots that are none of these, so many. `NoMemory`: there was no room for them or for the flags.
pub fn free_slots(alloc: Global, slots: &[u32], count: usize) -> Result<Slots, NoMemory>
    requires { length slots.now + count ≤ 16384 }
    ensures { IfOk result (λ free. AreLeastFree slots.now count free) }
{
    let mut marks = flags(alloc, SLOTS as usize)?;
    mark_all(&mut marks, slots);
    unmarked(alloc, &marks, count)
}

// The least slots whose flags are not set, so many.
fn unmarked(alloc: Global, marks: &[bool], count: usize) -> Result<Slots, NoMemory>
    requires len { length marks.now ≡ 16384 }
    requires enough { count_marked marks.now + count ≤ 16384 }
    ensures { IfOk result (λ free. AreLeastUnmarked marks.now count free) }
{
    let mut free = Slots::with_room(alloc, count)?;
    for slot in 0..SLOTS {
        if free.as_slice().len() == count {
            return Ok(free);
        }
        if marks[slot as usize] {
            continue;
        }
        free.push(slot)?;
    }
    Ok(free)
}
