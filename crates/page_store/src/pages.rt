// The pages of the current root.
ghost use Rattle.std.specs.Prelude.{◌≡◌, ◌++◌, ◌∷◌, [], ◌+◌, ◌-◌, ◌<◌, ◌≤◌, length, max, IfErr, IfOk, IfSome, OnErr, OnOk};
ghost use Rattle.std.specs.FinMap as finite;
ghost use Rattle.pss_base.specs.Causes.{HasCauseIf};
ghost use Rattle.pss_disk.specs.Reading.{OnlyReads};
ghost use Rattle.page_format.specs.Faults.{is_page_disk_fault};
ghost use Rattle.page_store.specs.Kept.{IsKept, rows_in};
ghost use Rattle.page_format.specs.Objects.{IsRightPut};
ghost use Rattle.page_format.specs.Pages.{ArePages};
ghost use Rattle.page_format.specs.Refusals.{IsPageRefusal};
ghost use Rattle.page_format.specs.Roots.{IsWithinLimits};
ghost use Rattle.page_format.specs.Rows.{AreRows};

use crate::slot_table::SlotTable;
use page_format::{Gathered, PageFault, Root, Slots, gather, stay_settled};
use pss_base::{Bytes, NoMemory, Put, Puts};
use pss_disk::Station;
use std::alloc::Global;
use std::marker::Model;

mod checkpoint;
mod planning;

/// The current root of a store and its pages, without the records in them, and the changes noted for the next
/// checkpoint. The room is the number of changes that may be noted without memory.
#[derive(Drop)]
pub struct Pages {
    area: u8,
    epoch: u64,
    shape: Bytes,
    slots: Slots,
    places: SlotTable,
    small: Option<u32>,
    noted: Vec<Put>,
    room: usize,
    // The changes that the last checkpoint wrote. They are of no more use: one is let go with each that is noted, so that no
    // checkpoint waits until the memory of all of them is given back.
    spent: Vec<Put>,
    // Whether the changes noted are settled as they stand, and the serial of the last one, or 0.
    settled: bool,
    last: u64,
}

impl Model for Pages {
    ghost use Rattle.std.specs.Prelude.{◌+◌, ◌≤◌, length, vec_capacity};
    ghost use Rattle.std.specs.Coded.{codes, coded_ℕ};
    ghost use Rattle.std.specs.Ordering.{nat_cmp};
    ghost use Rattle.std.specs.FinMap as finite;
    ghost use Rattle.std.specs.Prelude.{All, IsTrue};
    ghost use Rattle.page_store.specs.Kept.{AreWithinLimits, Kept};
    ghost use Rattle.page_format.specs.Objects.{IsRightPut};
    ghost use Rattle.page_format.specs.inner.Settling.{AreSettled};

    ghost Value = { Kept };

    ghost coded = { Prim.hlevel (codes, finite.code {R = nat_cmp} coded_ℕ coded_ℕ) };

    ghost view = { λ p. record { area = p.area; epoch = p.epoch; shape = p.shape; slots = p.slots; places = finite.from_entries p.places.entries; small = p.small; noted = p.noted.items; room = p.room } };

    ghost invariant = { λ p. (length p.noted.items + p.room ≤ vec_capacity p.noted) × All IsRightPut p.noted.items × AreWithinLimits p.area p.shape p.slots × (IsTrue p.settled → AreSettled p.noted.items (p.last + 1) p.noted.items) };
}

/// The pages of a root, and the objects in them.
#[derive(Drop)]
pub struct Fetched {
    pub pages: Pages,
    /// The objects in the order of the pages' slots, and those of a page in its order.
    pub rows: Puts,
}

// The pages of a root whose entries were gathered.
fn pages_of(alloc: Global, root: &Root, gathered: Gathered) -> Result<Fetched, NoMemory>
    requires { IsWithinLimits root.now }
    ensures area { IfOk result (λ fetched. fetched.pages.area ≡ root.now.area) }
    ensures epoch { IfOk result (λ fetched. fetched.pages.epoch ≡ root.now.epoch) }
    ensures shape { IfOk result (λ fetched. fetched.pages.shape ≡ root.now.shape) }
    ensures slots { IfOk result (λ fetched. fetched.pages.slots ≡ root.now.slots) }
    ensures places { IfOk result (λ fetched. fetched.pages.places ≡ finite.from_entries gathered.places.entries) }
    ensures small { IfOk result (λ fetched. fetched.pages.small ≡ gathered.small) }
    ensures noted { IfOk result (λ fetched. fetched.pages.noted ≡ []) }
    ensures room { IfOk result (λ fetched. fetched.pages.room ≡ 0) }
    ensures rows { IfOk result (λ fetched. fetched.rows ≡ gathered.rows) }
{
    let shape = root.shape.copy()?;
    let slots = root.slots.copy()?;
    Ok(Fetched {
        pages: Pages {
            area: root.area,
            epoch: root.epoch,
            shape,
            slots,
            places: SlotTable::of(alloc, gathered.places),
            small: gathered.small,
            noted: Vec::new(alloc),
            room: 0,
            spent: Vec::new(alloc),
            settled: true,
            last: 0,
        },
        rows: gathered.rows,
    })
}

impl Pages {
    /// Reads the pages of a root, and tests them. The objects are answered beside them: they are not kept. What `alone` says
    /// of them rests on what was read, and holds of a station that tells nothing of its content, too.
    pub fn fetch<W: Station>(alloc: Global, w: &mut W, root: &Root) -> Result<Fetched, PageFault>
        requires { IsWithinLimits root.now }
        ensures right { IfOk result (λ fetched. IfSome (W.content w.old) (ArePages root.now.next root.now.slots)) }
        ensures alone { IfOk result (λ fetched. AreRows root.now.next (length root.now.slots) fetched.rows) }
        ensures rows { IfOk result (λ fetched. IfSome (W.content w.old) (λ c. fetched.rows ≡ rows_in c root.now.slots)) }
        ensures kept { IfOk result (λ fetched. IfSome (W.content w.old) (IsKept root.now fetched.pages)) }
        ensures noted { IfOk result (λ fetched. fetched.pages.noted ≡ []) }
        ensures room { IfOk result (λ fetched. fetched.pages.room ≡ 0) }
        ensures refused { IfErr result (λ fault. IfSome (W.content w.old) (IsPageRefusal root.now.next root.now.slots fault)) }
        ensures reads { OnlyReads W.now W.content W.history W.speak_faults w.old w.new }
        ensures cause { HasCauseIf (W.disk_faults w.old) (W.disk_faults w.new) (is_page_disk_fault result) }
    {
        let gathered = match gather(alloc, w, root.slots.as_slice(), root.next) {
            Ok(gathered) => gathered,
            Err(fault) => return Err(fault),
        };
        match pages_of(alloc, root, gathered) {
            Ok(fetched) => Ok(fetched),
            Err(_) => Err(PageFault::NoMemory),
        }
    }

    /// Makes room for so many changes, where it is not there yet. Without memory the pages are as before.
    pub fn note_reserve(&mut self, n: usize) -> Result<(), NoMemory>
        ensures ok { OnOk result (self.new ≡ record self.old { room = max self.old.room n }) }
        ensures err { OnErr result (self.new ≡ self.old) }
    {
        self.noted.reserve(n)?;
        self.room = self.room.max(n);
        Ok(())
    }

    /// Notes a change for the next checkpoint, and takes one of the room. It takes no memory. A record has 1 to 8,000 octets.
    pub fn note_reserved(&mut self, put: Put)
        requires room { 0 < self.old.room }
        requires record_ { IsRightPut put }
        ensures { self.new ≡ record self.old { noted = self.old.noted ++ put ∷ []; room = self.old.room - 1 } }
    {
        let _ = self.spent.pop();
        self.settled = stay_settled(self.settled, self.last, &put);
        self.last = put.serial;
        self.noted.push_reserved(put);
        self.room -= 1;
    }
}
