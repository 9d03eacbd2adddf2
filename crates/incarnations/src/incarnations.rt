// Entries and bodies, as callers see them.
ghost use Rattle.std.specs.Prelude.{◌≡◌, ◌≢◌, ◌+◌, ◌-◌, ◌*◌, ◌^◌, ◌<◌, ◌≤◌, ℕ, Some, None, IsSome, IsNone, IsSomeAnd, IfSome, MatchOption, IfOk, OnOk, OnErr, is_some, option_copied};
ghost use Rattle.std.specs.Option.{option_map, option_and_then};
ghost use Rattle.std.specs.FinMap as map;
ghost use Rattle.std.specs.FinMap.{get};
ghost use Rattle.link_pool.specs.Meaning.{AreRings};
ghost use Rattle.pss_machine.specs.declared.session.View.TheVariants.{Own};
ghost use Rattle.incarnations.specs.declared.names.Entry.{Entry};
ghost use Rattle.recent_table.specs.Maps.{count};
ghost use Rattle.incarnations.specs.Meaning.{no_copies, opened, entry_at, length_of, attached_of, entries_on, slot, body, with_count, with_view, with_entry, attached as attached_to, rewritten, body_under, is_attached, both, of_session, on_body, in_view, loosened, freed, Leaves, HasNoEntry, IsObtained, IsReleased, AreCopies};
ghost use Rattle.incarnations.specs.Rings.{AreCopyRings};

use crate::erasing::erase;
use crate::loosening::{is_asked, loosen};
use crate::names::{BodyName, ObjectName, Slot};
use crate::obtaining::{enter, recount};
use crate::opening::{close, open};
use crate::standing::{attach, share};
use crate::stock::Stock;
use crate::sweeping::{clear, free, sweep};
use crate::tables::bodies::BodyTable;
use crate::tables::entries::EntryTable;
use crate::tables::objects::ObjectTable;
use crate::tables::sessions::SessionTable;
use link_pool::Pool;
use pss_base::{NoMemory, OwnerNo, Pid, SessionNo, Steps};
use pss_machine::View;
use std::alloc::Global;
use std::marker::Model;
use std::sync::ledger::Ledger;
use type_layout::Record;

/// What an entry shows that stands on a body: its object, and the body's value.
#[derive(Clone, Copy)]
pub struct Shown<'a> {
    pub pid: Pid,
    pub value: &'a Record,
}

/// The entries of sessions, and the bodies that they stand on.
///
/// An entry is what a session calls an object: it has a number, the identifier of the object, and a count of how often
/// it was obtained. Numbers rise from 1 within a session and never come again; a session has at most one entry for an
/// object. An attached entry stands on a body: the copy of its object in one view, which all entries on it share. A
/// body goes with the last entry that stands on it.
///
/// Entries are found by session and number and by session and object, bodies by object and view, each by hash. No call
/// but `detach_body` looks at the entries of another session than the one it is given.
#[derive(Drop)]
pub struct Incarnations {
    stock: Stock,
}

impl Model for Incarnations {
    ghost use Rattle.incarnations.specs.Meaning.{Meaning, meaning_code};

    ghost Value = { Meaning };

    ghost coded = { meaning_code };

    ghost use Rattle.incarnations.specs.Stock.{meaning_of, IsSound};

    ghost view = { λ i. meaning_of i.stock };

    ghost invariant = { λ i. IsSound i.stock };
}

impl Incarnations {
    /// No session, no entry and no body. It takes no memory.
    pub fn new(alloc: Global) -> Incarnations
        ensures { result ≡ no_copies }
    {
        Incarnations {
            stock: Stock {
                pool: Pool::new(alloc),
                sessions: SessionTable::new(alloc),
                entries: EntryTable::new(alloc),
                objects: ObjectTable::new(alloc),
                bodies: BodyTable::new(alloc),
                attached: 0,
            },
        }
    }

    /// Whatever was done, numbers are from 1 to the last one that was given, counts are not 0, a session has at most one
    /// entry for an object, an entry stands on a body that is there, and on each body stands an entry. The call does
    /// nothing: its contract is the law.
    #[inline(always)]
    pub fn copies_hold(&self)
        ensures { AreCopies self.now }
    {
        let _ = self.stock.entries.len();
    }

    /// Adds a session, which has no entry. After `NoMemory` all is as before.
    pub fn add_session(&mut self, session: SessionNo) -> Result<(), NoMemory>
        requires { get self.old.lasts session ≡ None }
        ensures ok { OnOk result (self.new ≡ opened self.old session) }
        ensures err { OnErr result (self.new ≡ self.old) }
    {
        open(&mut self.stock, session)?;
        Ok(())
    }

    /// Obtains an object in a session: the answer is the number of the session's entry for it, which counts one more. A
    /// new entry has the next number, counts 1 and stands on no body. After `NoMemory` all is as before.
    pub fn obtain(&mut self, session: SessionNo, pid: Pid) -> Result<u32, NoMemory>
        requires session { IsSome (get self.old.lasts session) }
        requires room { length_of self.old session < 65535 }
        requires count { (n : ℕ) (e : Entry) → entry_at self.old session n ≡ Some e → e.pid ≡ pid → e.count < 2 ^ 32 - 1 }
        requires number { HasNoEntry self.old session pid → IsSomeAnd (get self.old.lasts session) (λ last. last < 2 ^ 32 - 1) }
        ensures ok { IfOk result (λ n. IsObtained self.old self.new session pid n) }
        ensures err { OnErr result (self.new ≡ self.old) }
    {
        let Some(home) = self.stock.sessions.get(session) else {
            unreachable!()
        };
        match self.stock.objects.get(ObjectName { session, pid }) {
            Some(number) => {
                let slot = Slot { session, number };
                let Some(was) = self.stock.entries.get(slot) else {
                    unreachable!()
                };
                recount(&mut self.stock, slot, was, was.entry.count + 1);
                Ok(number)
            }
            None => {
                let number = enter(&mut self.stock, session, home, pid)?;
                Ok(number)
            }
        }
    }

    /// An entry counts one more, and the answer is its count. None exactly where the session has no such entry; then all
    /// is as before. It takes no memory.
    pub fn dup(&mut self, session: SessionNo, number: u32) -> Option<u32>
        requires { IfSome (entry_at self.old session number) (λ e. e.count < 2 ^ 32 - 1) }
        ensures answer { result ≡ option_map (λ e. e.count + 1) (entry_at self.old session number) }
        ensures counted { MatchOption (entry_at self.old session number) (self.new ≡ self.old) (λ e. self.new ≡ with_entry self.old (slot session number) (with_count (e.count + 1) e)) }
    {
        let slot = Slot { session, number };
        match self.stock.entries.get(slot) {
            Some(was) => {
                let count = was.entry.count + 1;
                recount(&mut self.stock, slot, was, count);
                Some(count)
            }
            None => None,
        }
    }

    /// An entry counts one less, and the answer is its count; at 0 the entry goes, with one step. None exactly where the
    /// session has no such entry; then all is as before. It takes no memory.
    pub fn release<L: Ledger>(
        &mut self,
        session: SessionNo,
        number: u32,
        steps: &mut Steps<L>,
    ) -> Option<u32>
        ensures answer { result ≡ option_map (λ e. e.count - 1) (entry_at self.old session number) }
        ensures released { MatchOption (entry_at self.old session number) (self.new ≡ self.old) (IsReleased self.old self.new (slot session number)) }
        ensures gone { result ≡ Some 0 → steps.new ≡ steps.old + 1 }
        ensures stays { result ≢ Some 0 → steps.new ≡ steps.old }
        ensures steps { steps.new ≤ steps.old + 2 }
    {
        let slot = Slot { session, number };
        match self.stock.entries.get(slot) {
            Some(was) => {
                let count = was.entry.count;
                if count > 1 {
                    recount(&mut self.stock, slot, was, count - 1);
                    Some(count - 1)
                } else {
                    steps.tick();
                    erase(&mut self.stock, slot, was);
                    Some(0)
                }
            }
            None => None,
        }
    }

    /// The entries of a session go. It takes no memory, two steps for each of them, and at most one more.
    pub fn free_all<L: Ledger>(&mut self, session: SessionNo, steps: &mut Steps<L>)
        ensures lasts { self.new.lasts ≡ self.old.lasts }
        ensures freed { Leaves (freed (of_session session)) self.old self.new }
        ensures each { steps.old + 2 * length_of self.old session ≤ steps.new }
        ensures at_most { steps.new ≤ steps.old + (2 * length_of self.old session + 1) }
    {
        free(&mut self.stock, session, steps);
    }

    /// Removes a session with its entries. It takes no memory, two steps for each of them, and at most one more.
    pub fn remove_session<L: Ledger>(&mut self, session: SessionNo, steps: &mut Steps<L>)
        ensures lasts { self.new.lasts ≡ map.remove self.old.lasts session }
        ensures freed { Leaves (freed (of_session session)) self.old self.new }
        ensures each { steps.old + 2 * length_of self.old session ≤ steps.new }
        ensures at_most { steps.new ≤ steps.old + (2 * length_of self.old session + 1) }
    {
        free(&mut self.stock, session, steps);
        close(&mut self.stock, session);
    }

    /// The object of an entry. None exactly where the session has no such entry.
    #[inline(always)]
    pub fn pid_of(&self, session: SessionNo, number: u32) -> Option<Pid>
        ensures { result ≡ option_map (λ e. e.pid) (entry_at self.now session number) }
    {
        match self.stock.entries.get(Slot { session, number }) {
            Some(was) => Some(was.entry.pid),
            None => None,
        }
    }

    /// There is a body of the object in the view.
    pub fn has_body(&self, pid: Pid, view: View) -> bool
        ensures { result ≡ is_some (get self.now.bodies (body pid view)) }
    {
        match self.stock.bodies.place(BodyName { pid, view }) {
            Some(_) => true,
            None => false,
        }
    }

    /// The value of the body that an entry stands on. None exactly where it stands on none, or the session has no such
    /// entry. Nothing is copied.
    #[inline(always)]
    pub fn value(&self, session: SessionNo, number: u32) -> Option<&Record>
        ensures { option_copied result ≡ option_and_then (get self.now.bodies) (body_under self.now (slot session number)) }
    {
        match self.stock.entries.get(Slot { session, number }) {
            Some(was) => match was.entry.view {
                Some(view) => self.stock.bodies.value(BodyName {
                    pid: was.entry.pid,
                    view,
                }),
                None => None,
            },
            None => None,
        }
    }

    /// The object of an entry, and the value of the body that it stands on: `pid_of` and `value` by one look-up. None: the
    /// session has no such entry, or it stands on no body. Nothing is copied.
    #[inline(always)]
    pub fn shown(&self, session: SessionNo, number: u32) -> Option<Shown<'_>>
        ensures pid { IfSome result (λ shown. option_map (λ e. e.pid) (entry_at self.now session number) ≡ Some shown.pid) }
        ensures value { IfSome result (λ shown. option_and_then (get self.now.bodies) (body_under self.now (slot session number)) ≡ Some shown.value.now) }
        ensures none { IsNone result → option_and_then (get self.now.bodies) (body_under self.now (slot session number)) ≡ None }
    {
        match self.stock.entries.find(Slot { session, number }) {
            Some(was) => match was.entry.view {
                Some(view) => {
                    let pid = was.entry.pid;
                    match self.stock.bodies.value(BodyName { pid, view }) {
                        Some(value) => Some(Shown { pid, value }),
                        None => None,
                    }
                }
                None => None,
            },
            None => None,
        }
    }

    /// Makes the body of the entry's object in a view, with this value, and the entry stands on it. After `NoMemory` all
    /// is as before.
    pub fn attach(
        &mut self,
        session: SessionNo,
        number: u32,
        view: View,
        value: Record,
    ) -> Result<(), NoMemory>
        requires { IsSomeAnd (entry_at self.old session number) (λ e. (e.view ≡ None) × (get self.old.bodies (body e.pid view) ≡ None)) }
        ensures ok { OnOk result (IsSomeAnd (entry_at self.old session number) (λ e. self.new ≡ attached_to self.old (slot session number) view value e)) }
        ensures err { OnErr result (self.new ≡ self.old) }
    {
        let slot = Slot { session, number };
        let Some(was) = self.stock.entries.get(slot) else {
            unreachable!()
        };
        attach(&mut self.stock, slot, was, view, value)?;
        Ok(())
    }

    /// The entry stands on the body of its object in a view, which is there. It takes no memory.
    pub fn share(&mut self, session: SessionNo, number: u32, view: View)
        requires { IsSomeAnd (entry_at self.old session number) (λ e. (e.view ≡ None) × IsSome (get self.old.bodies (body e.pid view))) }
        ensures { IsSomeAnd (entry_at self.old session number) (λ e. self.new ≡ with_entry self.old (slot session number) (with_view (Some view) e)) }
    {
        let slot = Slot { session, number };
        let Some(was) = self.stock.entries.get(slot) else {
            unreachable!()
        };
        share(&mut self.stock, slot, was, view);
    }

    /// The body of the object in the owner's own view has this value, where there is such a body, for all entries on it.
    /// It takes no memory.
    pub fn rewrite(&mut self, pid: Pid, owner: OwnerNo, value: Record)
        ensures { self.new ≡ rewritten self.old (body pid (Own owner)) value }
    {
        let name = BodyName {
            pid,
            view: View::Own(owner),
        };
        match self.stock.bodies.place(name) {
            Some(_) => self.stock.bodies.set_value(name, value),
            None => (),
        }
    }

    /// The rings of the entries: each entry is one node, whose item has its session and number, and there are no other
    /// nodes. The nodes of one session are a column; those whose entries stand on one body are a row, and no entry that
    /// stands on none is in such a row.
    pub fn rings(&self) -> &Pool<Slot>
        ensures rings { AreRings result.now }
        ensures copies { AreCopyRings self.now result.now }
    {
        &self.stock.pool
    }

    /// The entries on the body of the object in the view stand on none, and it goes; where there is no such body, all is as before.
    /// It takes no memory, two steps for each of them, and at most one more.
    #[inline(always)]
    pub fn detach_body<L: Ledger>(&mut self, pid: Pid, view: View, steps: &mut Steps<L>)
        ensures lasts { self.new.lasts ≡ self.old.lasts }
        ensures left { Leaves (loosened (on_body (body pid view))) self.old self.new }
        ensures each { steps.old + 2 * entries_on self.old (body pid view) ≤ steps.new }
        ensures at_most { steps.new ≤ steps.old + (2 * entries_on self.old (body pid view) + 1) }
    {
        clear(&mut self.stock, BodyName { pid, view }, steps);
    }

    /// The entries of a session stand on no body. It takes no memory, two steps for each of them that stands on a body, and
    /// at most one more.
    pub fn detach_session<L: Ledger>(&mut self, session: SessionNo, steps: &mut Steps<L>)
        ensures lasts { self.new.lasts ≡ self.old.lasts }
        ensures left { Leaves (loosened (of_session session)) self.old self.new }
        ensures each { steps.old + 2 * attached_of self.old session ≤ steps.new }
        ensures at_most { steps.new ≤ steps.old + (2 * attached_of self.old session + 1) }
    {
        sweep(&mut self.stock, session, None, steps);
    }

    /// The entries of a session on bodies of the view stand on none. It takes no memory, two steps for each entry of the
    /// session that stands on a body, and at most one more.
    pub fn detach_view<L: Ledger>(&mut self, session: SessionNo, view: View, steps: &mut Steps<L>)
        ensures lasts { self.new.lasts ≡ self.old.lasts }
        ensures left { Leaves (loosened (both (of_session session) (in_view view))) self.old self.new }
        ensures each { steps.old + 2 * attached_of self.old session ≤ steps.new }
        ensures at_most { steps.new ≤ steps.old + (2 * attached_of self.old session + 1) }
    {
        sweep(&mut self.stock, session, Some(view), steps);
    }

    /// The session's entry for the object stands on no body, where it stood on the one of the view; else all is as
    /// before. It takes no memory, and one step where the entry leaves its body.
    pub fn detach_entry<L: Ledger>(
        &mut self,
        session: SessionNo,
        pid: Pid,
        view: View,
        steps: &mut Steps<L>,
    )
        ensures lasts { self.new.lasts ≡ self.old.lasts }
        ensures left { Leaves (loosened (both (of_session session) (on_body (body pid view)))) self.old self.new }
        ensures each { self.new ≢ self.old → steps.new ≡ steps.old + 1 }
        ensures steps { steps.new ≤ steps.old + 2 }
    {
        let Some(number) = self.stock.objects.get(ObjectName { session, pid }) else {
            return;
        };
        let slot = Slot { session, number };
        let Some(was) = self.stock.entries.get(slot) else {
            unreachable!()
        };
        if let Some(stood) = was.entry.view {
            if is_asked(Some(view), stood) {
                steps.tick();
                loosen(&mut self.stock, slot, was, stood);
            }
        }
    }

    /// How many entries there are.
    pub fn entries(&self) -> u64
        ensures { result ≡ map.len self.now.entries }
    {
        self.stock.entries.len() as u64
    }

    /// How many entries a session has.
    pub fn entries_of(&self, session: SessionNo) -> u32
        ensures { result ≡ length_of self.now session }
    {
        match self.stock.sessions.get(session) {
            Some(home) => home.entries,
            None => 0,
        }
    }

    /// How many entries stand on a body.
    pub fn attached(&self) -> u64
        ensures { result ≡ count is_attached self.now.entries }
    {
        self.stock.attached
    }

    /// How many bodies there are.
    pub fn bodies(&self) -> u64
        ensures { result ≡ map.len self.now.bodies }
    {
        self.stock.bodies.len() as u64
    }
}
