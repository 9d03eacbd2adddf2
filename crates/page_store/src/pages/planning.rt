// What a checkpoint writes is laid out.
ghost use Rattle.std.specs.Prelude.{ℕ, ◌≡◌, ◌+◌, ◌-◌, ◌%◌, ◌^◌, ◌<◌, ◌≤◌, ◌++◌, [], cond, false, None, List, length, map, slice_index, All, Err, IfOk, IfSome, IsTrue, OnOk};
ghost use Rattle.std.specs.FinMap as finite;
ghost use Rattle.pss_base.specs.Causes.{HasCauseIf};
ghost use Rattle.pss_disk.specs.Reading.{OnlyReads};
ghost use Rattle.page_store.specs.Checkpoints.{ArePackedAnew, AreSomeOf, MayCheckpoint, kept_slots, repacked_slots};
ghost use Rattle.page_store.specs.Kept.{Kept};
ghost use Rattle.page_format.specs.Objects.{IsRightPut, entries_left};
ghost use Rattle.page_format.specs.Packing.{AreLeastFree};
ghost use Rattle.page_store.specs.Placed.{is_noted, placed};
ghost use Rattle.page_format.specs.Roots.{IsWithinLimits};
ghost use Rattle.page_store.specs.Switch.{Old, slots_of};
ghost use Rattle.page_format.specs.Written.{AreStorable, AreWritable};
ghost use Rattle.page_format.specs.inner.Settling.{AreSettled};
ghost use Rattle.page_store.specs.declared.stop.PlanStop.TheVariants.{Lost as AreLost};
ghost use Rattle.page_store.specs.inner.Lost.{is_plan_disk_fault};
ghost use Rattle.page_store.specs.inner.Planned.{IsNextRoot, IsPlan, IsPlanned};
ghost use Rattle.page_store.specs.inner.Repacked.{AreLeft, AreTaken, IsRepacked, MayBeWritten};

use crate::pages::Pages;
use crate::parting::{Parted, part_slots};
use crate::placing::{new_pages, place_pages};
use crate::repacking::{Noted, reread_with};
use crate::small::small_of;
use crate::stop::PlanStop;
use page_format::layout::MOST_PAGES;
use page_format::{Entries, NewPage, Root, Slots, free_slots, pack};
use pss_base::{NoMemory, Put};
use pss_disk::Station;
use std::mem;

// The memory of a list with room for more changes than this, or of changes that fill more pages, is given back at once.
const MOST_KEPT: usize = 262144;

const MOST_PAGES_KEPT: usize = 1024;

/// What a checkpoint writes: the next root and its new pages. And that of the pages with little in use, where there is one.
#[derive(Drop)]
pub struct Plan<'a> {
    pub root: Root,
    pub pages: Vec<NewPage<'a>>,
    pub small: Option<u32>,
}

/// What a checkpoint packs anew: the slots that stay, and the changes that leave the objects of the other pages.
#[derive(Drop)]
pub struct Repacked {
    pub stay: Slots,
    pub puts: Vec<Put>,
}

impl Pages {
    /// Takes the changes that are noted.
    pub fn take_noted(&mut self) -> Noted
        ensures noted { result.puts.items ≡ self.old.noted }
        ensures right { All IsRightPut result.puts.items }
        ensures settled { IsTrue result.settled → (next : ℕ) × AreSettled result.puts.items next result.puts.items }
        ensures pages { self.new ≡ record self.old { noted = []; room = 0 } }
    {
        let list = self.spare();
        self.room = 0;
        self.last = 0;
        Noted {
            settled: mem::replace(&mut self.settled, true),
            puts: mem::replace(&mut self.noted, list),
        }
    }

    // The list of the changes that are spent, and none of them.
    fn spare(&mut self) -> Vec<Put>
        ensures list { result.items ≡ [] }
        ensures pages { self.new ≡ self.old }
    {
        let alloc = *self.noted.allocator();
        let mut list = mem::replace(&mut self.spent, Vec::new(alloc));
        list.clear();
        list
    }

    /// Parts the slots of the root by the changes noted, and takes the objects of these away.
    pub fn part(&mut self, noted: &[Put]) -> Result<Parted, NoMemory>
        ensures repacked { IfOk result (λ parted. parted.repacked ≡ repacked_slots (record self.old { noted = noted.now })) }
        ensures kept { IfOk result (λ parted. parted.kept ≡ kept_slots (record self.old { noted = noted.now })) }
        ensures below { IfOk result (λ parted. (k : ℕ) → k < length parted.repacked → slice_index parted.repacked k < 16384) }
        ensures some { IfOk result (λ parted. AreSomeOf self.old.slots parted.kept) }
        ensures places { OnOk result ((q : ℕ) → finite.get self.new.places q ≡ cond (is_noted q noted.now) None (finite.get self.old.places q)) }
        ensures pages { self.new ≡ record self.old { places = self.new.places } }
    {
        let alloc = *self.noted.allocator();
        let parted = part_slots(
            alloc,
            self.slots.as_slice(),
            &mut self.places,
            noted,
            self.small,
        )?;
        Ok(parted)
    }

    // Gives new pages the least free slots, and puts their objects there.
    fn place<'a>(&mut self, packed: Vec<Entries<'a>>) -> Result<Vec<NewPage<'a>>, NoMemory>
        requires few { length packed.items ≤ 8058 }
        requires written { MayBeWritten packed.items }
        ensures free { IfOk result (λ pages. AreLeastFree self.old.slots (length packed.entry.items) (slots_of pages.items)) }
        ensures packed { IfOk result (λ pages. map (λ page. page.entries) pages.items ≡ packed.entry.items) }
        ensures writable { IfOk result (λ pages. AreWritable pages.items) }
        ensures places { IfOk result (λ pages. (q : ℕ) → finite.get self.new.places q ≡ placed pages.items q (finite.get self.old.places q)) }
        ensures pages { self.new ≡ record self.old { places = self.new.places } }
    {
        let alloc = *self.noted.allocator();
        let free = free_slots(alloc, self.slots.as_slice(), packed.len())?;
        let pages = new_pages(alloc, packed, free.as_slice())?;
        place_pages(&mut self.places, &pages)?;
        Ok(pages)
    }

    // The root that follows, with the slots of some pages behind those that stay.
    fn next_root(&self, stay: Slots, pages: &[NewPage], next: u64) -> Result<Root, NoMemory>
        requires next { 1 ≤ next }
        requires few { length stay + length pages.now ≤ 8058 }
        requires some { AreSomeOf self.now.slots stay }
        requires free { (count : ℕ) × AreLeastFree self.now.slots count (slots_of pages.now) }
        ensures root { IfOk result (λ root. IsNextRoot self.now stay pages.now next root) }
        ensures limits { IfOk result (λ root. IsWithinLimits root) }
    {
        let shape = self.shape.copy()?;
        let slots = with_pages(stay, pages)?;
        Ok(Root {
            area: 1 - self.area,
            epoch: next_epoch(self.epoch),
            next,
            shape,
            slots,
        })
    }

    // The next root with these pages, for which there are slots.
    fn plan_pages<'a>(
        &mut self,
        stay: Slots,
        packed: Vec<Entries<'a>>,
        next: u64,
    ) -> Result<Plan<'a>, NoMemory>
        requires next { 1 ≤ next }
        requires few { length stay + length packed.items ≤ 8058 }
        requires some { AreSomeOf self.old.slots stay }
        requires written { MayBeWritten packed.items }
        ensures plan { IfOk result (λ plan. IsPlan self.old stay packed.entry.items next plan) }
        ensures limits { IfOk result (λ plan. IsWithinLimits plan.root) }
        ensures writable { IfOk result (λ plan. AreWritable plan.pages.items) }
        ensures places { IfOk result (λ plan. (q : ℕ) → finite.get self.new.places q ≡ placed plan.pages.items q (finite.get self.old.places q)) }
        ensures pages { self.new ≡ record self.old { places = self.new.places } }
    {
        let pages = self.place(packed)?;
        let small = small_of(&pages);
        let root = self.next_root(stay, &pages, next)?;
        Ok(Plan { root, pages, small })
    }

    /// Lays out what a checkpoint writes, where these slots stay and these pages are new. `Lost`: together they are more than a
    /// root may name.
    pub fn lay_out<'a>(
        &mut self,
        stay: Slots,
        packed: Vec<Entries<'a>>,
        next: u64,
    ) -> Result<Plan<'a>, PlanStop>
        requires next { 1 ≤ next }
        requires some { AreSomeOf self.old.slots stay }
        requires written { MayBeWritten packed.items }
        ensures plan { IfOk result (λ plan. IsPlan self.old stay packed.entry.items next plan) }
        ensures limits { IfOk result (λ plan. IsWithinLimits plan.root) }
        ensures writable { IfOk result (λ plan. AreWritable plan.pages.items) }
        ensures lost { result ≡ Err AreLost → 8058 < length stay + length packed.entry.items }
        ensures memory { is_plan_disk_fault result ≡ false }
        ensures places { IfOk result (λ plan. (q : ℕ) → finite.get self.new.places q ≡ placed plan.pages.items q (finite.get self.old.places q)) }
        ensures pages { self.new ≡ record self.old { places = self.new.places } }
    {
        if stay.as_slice().len() + packed.len() > MOST_PAGES as usize {
            return Err(PlanStop::Lost);
        }
        match self.plan_pages(stay, packed, next) {
            Ok(plan) => Ok(plan),
            Err(_) => Err(PlanStop::NoMemory),
        }
    }

    /// Takes the changes that are noted, and answers what is packed anew: those pages that hold an object of which a change is
    /// noted, and the one with little in use, are read again, and the changes made to their objects. After an error the pages
    /// are of no more use.
    pub fn repack<W: Station>(&mut self, w: &mut W) -> Result<Repacked, PlanStop>
        ensures storable { IfOk result (λ repacked. AreStorable (entries_left repacked.puts.items)) }
        ensures some { IfOk result (λ repacked. AreSomeOf self.old.slots repacked.stay) }
        ensures stay { IfOk result (λ repacked. repacked.stay ≡ kept_slots self.old) }
        ensures left { IfOk result (λ repacked. IfSome (W.content w.old) (AreLeft self.old repacked.puts.items)) }
        ensures taken { OnOk result (AreTaken self.old self.new) }
        ensures lost { result ≡ Err AreLost → IfSome (W.content w.old) (λ c. (old : Old) (next : ℕ) → MayCheckpoint old self.old next c → old.root.next < 2 ^ 64 → ⊥) }
        ensures reads { OnlyReads W.now W.content W.history W.speak_faults w.old w.new }
        ensures cause { HasCauseIf (W.disk_faults w.old) (W.disk_faults w.new) (is_plan_disk_fault result) }
    {
        let alloc = *self.noted.allocator();
        let noted = self.take_noted();
        let parted = match self.part(&noted.puts) {
            Ok(parted) => parted,
            Err(_) => return Err(PlanStop::NoMemory),
        };
        match reread_with(alloc, w, parted.repacked.as_slice(), noted) {
            Ok(puts) => Ok(Repacked {
                stay: parted.kept,
                puts,
            }),
            Err(stop) => Err(stop),
        }
    }

    /// Lays out the next root and its pages, of what is packed anew. After an error the pages are of no more use.
    pub fn plan<'a>(
        &mut self,
        stay: Slots,
        puts: &'a [Put],
        next: u64,
    ) -> Result<Plan<'a>, PlanStop>
        requires next { 1 ≤ next }
        requires some { AreSomeOf self.old.slots stay }
        requires storable { AreStorable (entries_left puts.now) }
        ensures planned { IfOk result (λ plan. (old : Old) (kept : Kept) (c : List ℕ) → IsRepacked kept self.old stay puts.now c → MayCheckpoint old kept next c → IsPlanned old kept next plan self.new c) }
        ensures limits { IfOk result (λ plan. IsWithinLimits plan.root) }
        ensures writable { IfOk result (λ plan. AreWritable plan.pages.items) }
        ensures packed { IfOk result (λ plan. (kept : Kept) (c : List ℕ) → IsRepacked kept self.old stay puts.now c → ArePackedAnew kept plan.pages.items c) }
        ensures next_root { IfOk result (λ plan. IsNextRoot self.old stay plan.pages.items next plan.root) }
        ensures lost { result ≡ Err AreLost → (old : Old) (kept : Kept) (c : List ℕ) → IsRepacked kept self.old stay puts.now c → MayCheckpoint old kept next c → old.root.next < 2 ^ 64 → ⊥ }
        ensures memory { is_plan_disk_fault result ≡ false }
        ensures pages { self.new ≡ record self.old { places = self.new.places } }
    {
        let alloc = *self.noted.allocator();
        let packed = match pack(alloc, puts) {
            Ok(packed) => packed,
            Err(_) => return Err(PlanStop::NoMemory),
        };
        match self.lay_out(stay, packed, next) {
            Ok(plan) => Ok(plan),
            Err(stop) => Err(stop),
        }
    }

    /// Keeps changes that were written, which fill so many pages, to let them go as others are noted. Where they take much
    /// memory, it is given back at once.
    pub fn keep_spent(&mut self, puts: Vec<Put>, pages: usize)
        ensures { self.new ≡ self.old }
    {
        if pages <= MOST_PAGES_KEPT && puts.capacity() <= MOST_KEPT {
            self.spent = puts;
        }
    }

    /// Keeps the root that was planned, once it is the current one.
    pub fn adopt(&mut self, plan: Plan<'_>)
        requires { IsWithinLimits plan.root }
        ensures { self.new ≡ record self.old { area = plan.entry.root.area; epoch = plan.entry.root.epoch; shape = plan.entry.root.shape; slots = plan.entry.root.slots; small = plan.entry.small } }
    {
        let Plan {
            root,
            pages: _,
            small,
        } = plan;
        self.area = root.area;
        self.epoch = root.epoch;
        self.shape = root.shape;
        self.slots = root.slots;
        self.small = small;
    }
}

// The epoch behind one.
fn next_epoch(epoch: u64) -> u64
    ensures next { result ≡ (epoch + 1) % 2 ^ 64 }
    ensures given { epoch < 2 ^ 64 }
{
    epoch.wrapping_add(1)
}

// Slots with those of pages behind them.
fn with_pages(mut slots: Slots, pages: &[NewPage]) -> Result<Slots, NoMemory>
    ensures { IfOk result (λ all. all ≡ slots ++ slots_of pages.now) }
{
    for page in pages {
        slots.push(page.slot)?;
    }
    Ok(slots)
}
