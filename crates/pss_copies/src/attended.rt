// Sessions and their entries, as callers see them.
ghost use Rattle.std.specs.Prelude.{◌≡◌, ◌≢◌, ◌+◌, ◌-◌, ◌*◌, ◌^◌, ◌<◌, ◌≤◌, ℕ, Bool, true, None, IsSome, IsSomeAnd, IfSome, MatchOption, IfOk, OnOk, OnErr, IsTrue, List, length, Option, Some, [], ◌∷◌};
ghost use Rattle.std.specs.FinMap.{get};
ghost use Rattle.std.specs.Option.{option_map};
ghost use Rattle.pss_catalog.specs.Catalog.{Object, Catalog};
ghost use Rattle.pss_machine.specs.declared.level.Level.{Level};
ghost use Rattle.type_layout.specs.declared.schema.Schema.{Schema};
ghost use Rattle.type_layout.specs.Types.{PlainValue};
ghost use Rattle.pss_laws.specs.Sound.{IsSound};
ghost use Rattle.pss_machine.specs.declared.session.Association.TheVariants as association;
ghost use Rattle.pss_machine.specs.declared.session.View.TheVariants.{Own};
ghost use Rattle.pss_machine.specs.Sessions.{Session, active_in, open_in, is_basic};
ghost use Rattle.pss_machine.specs.Copies.{Copies, Entry as PlainEntry, bodies, entry_numbered, is_attached, view_in};
ghost use Rattle.pss_machine.specs.Attaching.{is_open};
ghost use Rattle.pss_machine.specs.Deciding.{counting, refreshed, entry_count, all_names};
ghost use Rattle.pss_machine.specs.Kept.{Kept, first_kept, is_transaction, copies_of};
ghost use Rattle.pss_machine.specs.Effects.{Associates, Holds, Commits, Flushes};
ghost use Rattle.pss_machine.specs.Moving.{moved, with_owner, without_owner, with_session, without_session, ended, without_transaction_of};
ghost use Rattle.pss_session.specs.Meaning.{session_at, number_named, MayStart};
ghost use Rattle.incarnations.specs.Meaning.{length_of, attached_of, entry_at, body, HasNoEntry};
ghost use Rattle.incarnations.specs.declared.names.Entry.{Entry};
ghost use Rattle.pss_copies.specs.Seats.{Attends, IsShared, IsRecordIn, seated_at, IsObtainedIn};
ghost use Rattle.pss_machine.specs.Entries.{AreOrderly};
ghost use Rattle.pss_copies.specs.Ruled.{AreOwned, HomesAgree, AreInOrder};
ghost use Rattle.pss_machine.specs.Owners.{Step};
ghost use Rattle.pss_copies.specs.Stepped.{left_by, SetsAt, DestroysAt, OutdatesNone, OwnsNone};
ghost use Rattle.pss_copies.specs.Settling.{MayCommit, MayFlush};
ghost use Rattle.pss_base.specs.declared.owner.OwnerNo.{OwnerNo as OwnerNumber};
ghost use Rattle.pss_base.specs.declared.session.SessionNo.{SessionNo as SessionNumber};

use crate::parts::Parts;
use crate::settling::detach_bodies;
use incarnations::Incarnations;
use pss_base::{Bytes, NoMemory, OwnerNo, Pid, SessionNo, Steps};
use pss_machine::{Access, Kind, View};
use pss_session::Sessions;
use std::alloc::Global;
use std::marker::Model;
use std::sync::ledger::Ledger;
use type_layout::Record;

/// Sessions, the entries of each, and the copies of objects that these stand on.
#[derive(Drop)]
pub struct Attended {
    parts: Parts,
}

impl Model for Attended {
    ghost use Rattle.pss_copies.specs.declared.parts.Parts.{Parts};

    ghost Value = { Parts };

    ghost use Rattle.pss_copies.specs.contracts.parts.Parts as parts_code;

    ghost coded = { parts_code.the_row.coded };

    ghost use Rattle.pss_session.specs.Meaning.{HaveSessions};

    ghost view = { λ a. a.parts };

    ghost invariant = { λ a. HaveSessions a.parts.sessions a.parts.copies };
}

impl Attended {
    /// No session. It takes no memory.
    pub fn new(alloc: Global) -> Attended
        ensures { (M : Catalog) (next : ℕ) → Attends (first_kept M next) result }
    {
        Attended {
            parts: Parts {
                sessions: Sessions::new(alloc),
                copies: Incarnations::new(alloc),
            },
        }
    }

    /// The sessions: which there are, under which names, and how they are associated.
    pub fn sessions(&self) -> &Sessions
        ensures { result.now ≡ self.now.sessions }
    {
        &self.parts.sessions
    }

    /// The entries of the sessions, and what these stand on.
    pub fn copies(&self) -> &Incarnations
        ensures { result.now ≡ self.now.copies }
    {
        &self.parts.copies
    }

    /// How many entries all sessions have together.
    pub fn entries(&self) -> u64
        ensures { (k : Kept) → AreInOrder k → Attends k self.now → result ≡ entry_count k }
    {
        self.parts.copies.copies_hold();
        self.parts.copies.entries()
    }

    /// How many entries a session has.
    pub fn entries_of(&self, session: SessionNo) -> u32
        ensures { (k : Kept) (copies : Copies) → get k.copies session.0 ≡ Some copies → AreOrderly copies → Attends k self.now → result ≡ length copies.entries }
    {
        self.parts.copies.entries_of(session)
    }

    /// How many entries stand on bodies.
    pub fn attached(&self) -> u64
        ensures { (k : Kept) → AreInOrder k → Attends k self.now → result ≡ length (all_names k) }
    {
        self.parts.copies.copies_hold();
        self.parts.copies.attached()
    }

    /// How many bodies there are.
    pub fn bodies(&self) -> u64
        ensures { (k : Kept) → AreInOrder k → Attends k self.now → result ≡ length (bodies (all_names k)) }
    {
        self.parts.copies.copies_hold();
        self.parts.copies.bodies()
    }

    /// Opens a session, in no transaction and with no entry, under a name that no session has. The answer is its number,
    /// the next one.
    ///
    /// `NoMemory`: all is as before.
    pub fn open(&mut self, name: Bytes, kind: Kind, access: Access) -> Result<SessionNo, NoMemory>
        requires number { self.old.sessions.next < 2 ^ 32 }
        requires name { number_named self.old.sessions name ≡ None }
        ensures number { IfOk result (λ s. s.0 ≡ self.old.sessions.next) }
        ensures opened { OnOk result ((k : Kept) → Attends k self.old → Attends (with_session k name kind access) self.new) }
        ensures err { OnErr result (self.new ≡ self.old) }
    {
        let parts = &mut self.parts;
        let added = parts.sessions.add(&mut parts.copies, name, kind, access);
        parts.copies.copies_hold();
        added
    }

    /// Closes a session, which goes with its entries. It takes no memory, two steps for each entry of the session, and at most
    /// one more.
    pub fn close<L: Ledger>(&mut self, session: SessionNo, steps: &mut Steps<L>)
        requires there { IsSome (session_at self.old.sessions session) }
        ensures closed { (k : Kept) → Attends k self.old → Attends (without_session k session) self.new }
        ensures each { steps.old + 2 * length_of self.old.copies session ≤ steps.new }
        ensures at_most { steps.new ≤ steps.old + (2 * length_of self.old.copies session + 1) }
    {
        let parts = &mut self.parts;
        parts.sessions.remove(&mut parts.copies, session, steps);
    }

    /// A transactional session that is in no transaction, or suspended with this one, is active with it.
    pub fn start(&mut self, session: SessionNo, owner: OwnerNo)
        requires { IsSomeAnd (session_at self.old.sessions session) (MayStart owner) }
        ensures { (k : Kept) → Attends k self.old → Attends (moved k (Associates session (association.Active owner))) self.new }
    {
        self.parts.sessions.start(session, owner);
    }

    /// A session that is active is suspended with its transaction.
    pub fn suspend(&mut self, session: SessionNo)
        requires { IsSomeAnd (session_at self.old.sessions session) (λ x. IsSome (active_in x.association)) }
        ensures { IsSomeAnd (session_at self.old.sessions session) (λ x. IsSomeAnd (active_in x.association) (λ n. (k : Kept) → Attends k self.old → Attends (moved k (Associates session (association.Suspended n))) self.new)) }
    {
        self.parts.sessions.suspend(session);
    }

    /// A session that is active or suspended is ending with its transaction, and its entries stand on no body. It takes no
    /// memory, two steps for each entry of the session that stands on a body, and at most one more.
    pub fn end<L: Ledger>(&mut self, session: SessionNo, steps: &mut Steps<L>)
        requires { IsSomeAnd (session_at self.old.sessions session) (λ x. IsSome (open_in x.association)) }
        ensures ended { IsSomeAnd (session_at self.old.sessions session) (λ x. IsSomeAnd (open_in x.association) (λ n. (k : Kept) (failed : Bool) → Attends k self.old → Attends (ended k session n failed) self.new)) }
        ensures each { steps.old + 2 * attached_of self.old.copies session ≤ steps.new }
        ensures at_most { steps.new ≤ steps.old + (2 * attached_of self.old.copies session + 1) }
    {
        let parts = &mut self.parts;
        parts.copies.copies_hold();
        parts.sessions.end(&mut parts.copies, session, steps);
    }

    /// A transaction is gone: each session that was associated with it is in none, and its entries stand on no body. It looks
    /// at each session, and takes no memory.
    pub fn finish<L: Ledger>(&mut self, owner: OwnerNo, steps: &mut Steps<L>)
        ensures { (k : Kept) → AreOwned k.owners k.sessions k.next_owner → is_transaction k.owners owner.0 ≡ true → Attends k self.old → Attends (without_transaction_of k owner) self.new }
    {
        let parts = &mut self.parts;
        parts.copies.copies_hold();
        parts.sessions.finish(&mut parts.copies, owner, steps);
        parts.copies.copies_hold();
    }

    /// An entry counts one more, and the answer is its count. None exactly where the session has no such entry; then all is as
    /// before. It takes no memory.
    pub fn dup(&mut self, session: SessionNo, number: u32) -> Option<u32>
        requires { IfSome (entry_at self.old.copies session number) (λ e. e.count < 2 ^ 32 - 1) }
        ensures answer { (k : Kept) → Attends k self.old → result ≡ option_map (λ e. e.count + 1) (entry_numbered (copies_of k session) number) }
        ensures counted { (k : Kept) → Attends k self.old → MatchOption (entry_numbered (copies_of k session) number) (self.new ≡ self.old) (λ e. Attends (moved k (Holds session (counting number (e.count + 1) (copies_of k session)))) self.new) }
    {
        let copies = &mut self.parts.copies;
        copies.copies_hold();
        copies.dup(session, number)
    }

    /// An entry counts one less, and the answer is its count; at 0 the entry goes, with one step. None exactly where the
    /// session has no such entry; then all is as before. It takes no memory.
    pub fn release<L: Ledger>(
        &mut self,
        session: SessionNo,
        number: u32,
        steps: &mut Steps<L>,
    ) -> Option<u32>
        ensures answer { (k : Kept) → Attends k self.old → result ≡ option_map (λ e. e.count - 1) (entry_numbered (copies_of k session) number) }
        ensures released { (k : Kept) → Attends k self.old → MatchOption (entry_numbered (copies_of k session) number) (self.new ≡ self.old) (λ e. Attends (moved k (Holds session (counting number (e.count - 1) (copies_of k session)))) self.new) }
        ensures gone { result ≡ Some 0 → steps.new ≡ steps.old + 1 }
        ensures stays { result ≢ Some 0 → steps.new ≡ steps.old }
        ensures steps { steps.new ≤ steps.old + 2 }
    {
        let copies = &mut self.parts.copies;
        copies.copies_hold();
        copies.release(session, number, steps)
    }

    /// The entries of a session go. It takes no memory, two steps for each of them, and at most one more.
    pub fn free_all<L: Ledger>(&mut self, session: SessionNo, steps: &mut Steps<L>)
        ensures freed { (k : Kept) → IsSome (get k.copies session.0) → Attends k self.old → Attends (moved k (Holds session (record { last = (copies_of k session).last; entries = [] }))) self.new }
        ensures each { steps.old + 2 * length_of self.old.copies session ≤ steps.new }
        ensures at_most { steps.new ≤ steps.old + (2 * length_of self.old.copies session + 1) }
    {
        self.parts.copies.free_all(session, steps);
    }

    /// The entries of a basic session that stand on its own copies stand on no body. It takes no memory, two steps for each
    /// entry of the session that stands on a body, and at most one more.
    pub fn refresh<L: Ledger>(&mut self, session: SessionNo, steps: &mut Steps<L>)
        requires { IsSomeAnd (session_at self.old.sessions session) (λ x. IsTrue (is_basic x)) }
        ensures refreshed { (k : Kept) (x : Session) → get k.sessions session.0 ≡ Some x → IsSome (get k.copies session.0) → Attends k self.old → Attends (moved k (Holds session (refreshed k session x))) self.new }
        ensures each { steps.old + 2 * attached_of self.old.copies session ≤ steps.new }
        ensures at_most { steps.new ≤ steps.old + (2 * attached_of self.old.copies session + 1) }
    {
        let parts = &mut self.parts;
        parts.copies.copies_hold();
        parts.sessions.refresh(&mut parts.copies, session, steps);
    }

    /// The entry stands on the body of its object in a view that may be shared, which is there. It takes no memory.
    pub fn share(&mut self, session: SessionNo, number: u32, view: View)
        requires { IsSomeAnd (entry_at self.old.copies session number) (λ e. (e.view ≡ None) × IsSome (get self.old.copies.bodies (body e.pid view))) }
        ensures { (k : Kept) (x : Session) → get k.sessions session.0 ≡ Some x → is_open x ≡ true → IsSomeAnd (entry_at self.old.copies session number) (λ e. view ≡ view_in k.owners session x e.pid) → IsShared view → Attends k self.old → Attends (seated_at k session number) self.new }
    {
        let copies = &mut self.parts.copies;
        copies.copies_hold();
        copies.share(session, number, view);
    }

    /// Makes the body of the entry's object in the view in which the session sees it, with the record there, and the entry
    /// stands on it. After `NoMemory` all is as before.
    #[inline(always)]
    pub fn attach(
        &mut self,
        session: SessionNo,
        number: u32,
        view: View,
        value: Record,
    ) -> Result<(), NoMemory>
        requires { IsSomeAnd (entry_at self.old.copies session number) (λ e. (e.view ≡ None) × (get self.old.copies.bodies (body e.pid view) ≡ None)) }
        ensures ok { OnOk result ((k : Kept) (x : Session) → get k.sessions session.0 ≡ Some x → is_open x ≡ true → IsSomeAnd (entry_at self.old.copies session number) (λ e. (view ≡ view_in k.owners session x e.pid) × IsRecordIn k e.pid view value) → Attends k self.old → Attends (seated_at k session number) self.new) }
        ensures err { OnErr result (self.new ≡ self.old) }
    {
        let copies = &mut self.parts.copies;
        copies.copies_hold();
        copies.attach(session, number, view, value)
    }

    /// Obtains an object in a session: the answer is the number of the session's entry for it, which counts one more. A new
    /// entry has the next number, counts 1 and stands on no body. After `NoMemory` all is as before.
    pub fn obtain(&mut self, session: SessionNo, pid: Pid) -> Result<u32, NoMemory>
        requires session { IsSome (get self.old.copies.lasts session) }
        requires room { length_of self.old.copies session < 65535 }
        requires count { (n : ℕ) (e : Entry) → entry_at self.old.copies session n ≡ Some e → e.pid ≡ pid → e.count < 2 ^ 32 - 1 }
        requires number { HasNoEntry self.old.copies session pid → IsSomeAnd (get self.old.copies.lasts session) (λ last. last < 2 ^ 32 - 1) }
        ensures ok { IfOk result (λ n. (k : Kept) → AreOrderly (copies_of k session) → Attends k self.old → IsObtainedIn k session pid n self.new) }
        ensures err { OnErr result (self.new ≡ self.old) }
    {
        let copies = &mut self.parts.copies;
        copies.copies_hold();
        copies.obtain(session, pid)
    }

    /// An owner has given the object these values: in its sessions the entries for the object stand on no body where they
    /// stood on the committed one or on the session's own copy, and the owner's body of it, where there is one, has the
    /// values. It looks at each session, and takes no memory.
    pub fn write<L: Ledger>(
        &mut self,
        owner: OwnerNo,
        pid: Pid,
        value: Record,
        steps: &mut Steps<L>,
    )
        ensures { (k : Kept) (step : Step) → SetsAt k owner step pid value → HomesAgree k → Attends k self.old → Attends (left_by k owner step) self.new }
    {
        let parts = &mut self.parts;
        parts.copies.copies_hold();
        parts
            .sessions
            .detach_pid(&mut parts.copies, owner, pid, steps);
        parts.copies.rewrite(pid, owner, value);
    }

    /// An owner that has no body of the object has given it other values: in its sessions the entries for the object stand on no
    /// body where they stood on the committed one or on the session's own copy. It looks at each session, and takes no memory.
    pub fn outdate<L: Ledger>(&mut self, owner: OwnerNo, pid: Pid, steps: &mut Steps<L>)
        requires { get self.old.copies.bodies (body pid (Own owner)) ≡ None }
        ensures { (k : Kept) (step : Step) (values : List PlainValue) → SetsAt k owner step pid values → HomesAgree k → Attends k self.old → Attends (left_by k owner step) self.new }
    {
        let parts = &mut self.parts;
        parts.copies.copies_hold();
        parts
            .sessions
            .detach_pid(&mut parts.copies, owner, pid, steps);
    }

    /// An owner has taken the object away: in its sessions no entry for the object stands on a body. It looks at each session
    /// and at the entries on the owner's body of the object, and takes no memory.
    pub fn remove<L: Ledger>(&mut self, owner: OwnerNo, pid: Pid, steps: &mut Steps<L>)
        ensures { (k : Kept) (step : Step) → DestroysAt k owner step pid → HomesAgree k → Attends k self.old → Attends (left_by k owner step) self.new }
    {
        let parts = &mut self.parts;
        parts.copies.copies_hold();
        parts
            .sessions
            .detach_pid(&mut parts.copies, owner, pid, steps);
        parts.copies.detach_body(pid, View::Own(owner), steps);
        parts.copies.copies_hold();
    }

    /// A transaction commits what it changed of these objects: no entry stands on the committed body of one of them, and the
    /// transaction is gone, so that each session that was associated with it is in none, and its entries stand on no body. It
    /// looks at each session, and takes no memory.
    pub fn commit<L: Ledger>(&mut self, owner: OwnerNo, pids: &[Pid], steps: &mut Steps<L>)
        ensures { (k : Kept) → MayCommit k owner pids.now → Attends k self.old → Attends (moved k (Commits owner)) self.new }
    {
        let kept = &mut self.parts;
        kept.copies.copies_hold();
        detach_bodies(&mut kept.copies, pids, View::Committed, steps);
        kept.copies.copies_hold();
        kept.sessions.finish(&mut kept.copies, owner, steps);
        kept.copies.copies_hold();
    }

    /// A basic session commits what it changed of these objects, and goes on: no entry stands on the committed body of one of
    /// them, nor on a body that is the session's own for a change. Each object to which it gave a value is among `own`: no entry
    /// on another body is looked at. It takes no memory.
    pub fn flush<L: Ledger>(
        &mut self,
        owner: OwnerNo,
        pids: &[Pid],
        own: &[Pid],
        steps: &mut Steps<L>,
    )
        ensures { (k : Kept) → MayFlush k owner pids.now own.now → Attends k self.old → Attends (moved k (Flushes owner)) self.new }
    {
        let copies = &mut self.parts.copies;
        copies.copies_hold();
        detach_bodies(copies, pids, View::Committed, steps);
        detach_bodies(copies, own, View::Own(owner), steps);
        copies.copies_hold();
    }

    /// What changes of owners is nothing to sessions and their entries where no object of an entry that stands on a body is
    /// touched: a step that changes none, a step that makes an object of the next serial, an owner that comes, and one that
    /// goes to which no session belongs. An entry that is attached already stays where it stands. The call does nothing: its
    /// contract is the law.
    pub fn entries_stay(&self)
        ensures quiet { (k : Kept) (owner : OwnerNumber) (step : Step) → step.own ≡ [] → OutdatesNone owner step → Attends k self.now → Attends (left_by k owner step) self.now }
        ensures fresh { (S : Schema) (k : Kept) (owner : OwnerNumber) (step : Step) (state : Option Object) → step.own ≡ record { serial = k.next; state = state } ∷ [] → OutdatesNone owner step → IsSound S k → HomesAgree k → Attends k self.now → Attends (left_by k owner step) self.now }
        ensures comes { (k : Kept) (name : List ℕ) (level : Level) → AreOwned k.owners k.sessions k.next_owner → Attends k self.now → Attends (with_owner k name level) self.now }
        ensures attached { (k : Kept) (s : SessionNumber) (n : ℕ) (e : PlainEntry) → entry_numbered (copies_of k s) n ≡ Some e → is_attached e ≡ true → Attends k self.now → Attends (seated_at k s n) self.now }
        ensures goes { (k : Kept) (owner : OwnerNumber) → OwnsNone k owner → Attends k self.now → Attends (without_owner k owner) self.now }
    {
        self.parts.copies.copies_hold();
    }
}
