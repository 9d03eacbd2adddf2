// Sessions, as callers see them.
ghost use Rattle.std.specs.Prelude.{◌≡◌, ◌+◌, ◌*◌, ◌^◌, ◌<◌, ◌≤◌, None, IsSome, IsSomeAnd, IfSome, MatchOption, IfOk, OnOk, OnErr, IsTrue};
ghost use Rattle.std.specs.FinMap as map;
ghost use Rattle.incarnations.specs.Meaning.{opened as with_copies, Leaves, loosened, freed, of_session, in_view, both, length_of, attached_of};
ghost use Rattle.pss_machine.specs.declared.session.Association.TheVariants as association;
ghost use Rattle.pss_machine.specs.declared.session.View.TheVariants.{Kept};
ghost use Rattle.pss_machine.specs.Sessions.{is_basic, active_in, open_in};
ghost use Rattle.pss_session.specs.Finding.{IsFound};
ghost use Rattle.pss_session.specs.Meaning.{no_sessions, session_at, number_named, first_open, opened, closed, associated, finished, MayStart, HaveSessions, is_in, belongs_to, of_sessions, on_unchanged};

use crate::coming::{close, open, prepare};
use crate::detaching::{detach_all, detach_pid};
use crate::register::{Found, Register, SessionRecord, Standing};
use crate::{names, rows};
use incarnations::Incarnations;
use pss_base::{Bytes, NoMemory, OwnerNo, Pid, SessionNo, Steps};
use pss_machine::{Access, Association, Kind, View};
use std::alloc::Global;
use std::cell::Cell;
use std::marker::Model;
use std::sync::ledger::Ledger;

/// Which sessions there are, under which names, and how they are associated with transactions.
///
/// A session has a number, in the order in which sessions were opened, and a name that no other session has. It is found by
/// both, each by hash. `first_open`, `finish` and `detach_pid` look at each session, and `remove` moves those that were
/// opened later: whoever adds sessions limits how many there are at once.
///
/// The entries of the sessions are kept beside, as `Incarnations`.
#[derive(Drop)]
pub struct Sessions {
    register: Register,
    // The place of the session found last by name, where the next one is looked for first: a script has many lines for one session.
    // It may be any number.
    last: Cell<usize>,
}

impl Model for Sessions {
    ghost use Rattle.pss_session.specs.Meaning.{Meaning, meaning_code};

    ghost Value = { Meaning };

    ghost coded = { meaning_code };

    ghost use Rattle.pss_session.specs.inner.Register.{meaning_of, IsSound};

    ghost view = { λ s. meaning_of s.register };

    ghost invariant = { λ s. IsSound s.register };
}

impl Sessions {
    /// No session. It takes no memory.
    pub fn new(alloc: Global) -> Sessions
        ensures { result ≡ no_sessions }
    {
        Sessions {
            register: Register {
                rows: rows::empty(alloc),
                names: names::empty(alloc),
                last: 0,
            },
            last: Cell::new(0),
        }
    }

    /// Adds a session, in no transaction and with no entry, under a name that no session has. The answer is its number,
    /// the next one.
    ///
    /// `NoMemory`: the sessions and the copies are as before.
    pub fn add(
        &mut self,
        copies: &mut Incarnations,
        name: Bytes,
        kind: Kind,
        access: Access,
    ) -> Result<SessionNo, NoMemory>
        requires number { self.old.next < 2 ^ 32 }
        requires name { number_named self.old name ≡ None }
        requires copies { HaveSessions self.old copies.old }
        ensures number { IfOk result (λ s. s.0 ≡ self.old.next) }
        ensures ok { OnOk result (self.new ≡ opened self.old name kind access) }
        ensures copies { IfOk result (λ s. copies.new ≡ with_copies copies.old s) }
        ensures have { HaveSessions self.new copies.new }
        ensures err { OnErr result (self.new ≡ self.old) }
        ensures err_copies { OnErr result (copies.new ≡ copies.old) }
    {
        let key = prepare(&mut self.register, &name)?;
        let session = SessionNo(self.register.last + 1);
        match copies.add_session(session) {
            Ok(()) => {
                open(&mut self.register, key, name, kind, access);
                Ok(session)
            }
            Err(NoMemory) => Err(NoMemory),
        }
    }

    /// The number of the session of a name. None exactly where no session has it.
    pub fn find(&self, name: &[u8]) -> Option<SessionNo>
        ensures { result ≡ number_named self.now name.now }
    {
        names::read(&self.register.names, name)
    }

    // The session at a place of the rows, where that of this name stands there.
    #[inline(always)]
    fn found_there(&self, place: usize, name: &[u8]) -> Option<Found>
        ensures { IfSome result (IsFound self.now name.now) }
    {
        match self.register.rows.get_index(place) {
            Some((number, record)) if record.name.as_slice() == name => Some(Found {
                number: SessionNo(*number),
                standing: record.standing(),
            }),
            _ => None,
        }
    }

    // The session of a name by its hash. The next one is looked for at its place.
    #[inline(never)]
    fn look_up(&self, name: &[u8]) -> Option<Found>
        ensures { MatchOption result (number_named self.now name.now ≡ None) (IsFound self.now name.now) }
    {
        let number = self.find(name)?;
        match rows::find_row(&self.register.rows, number.0) {
            Some((place, record)) => {
                self.last.set(place);
                Some(Found {
                    number,
                    standing: record.standing(),
                })
            }
            None => unreachable!(),
        }
    }

    /// The session of a name, and its standing: `find` and `standing` by one look-up, and by none where it was the session found last.
    /// None exactly where no session has the name.
    #[inline(always)]
    pub fn find_standing(&self, name: &[u8]) -> Option<Found>
        ensures { MatchOption result (number_named self.now name.now ≡ None) (IsFound self.now name.now) }
    {
        match self.found_there(self.last.get(), name) {
            Some(found) => Some(found),
            None => self.look_up(name),
        }
    }

    /// Removes a session with its entries, and its name is free. It takes no memory, two steps for each entry of the
    /// session, and at most one more.
    pub fn remove<L: Ledger>(
        &mut self,
        copies: &mut Incarnations,
        session: SessionNo,
        steps: &mut Steps<L>,
    )
        requires there { IsSome (session_at self.old session) }
        requires copies { HaveSessions self.old copies.old }
        ensures closed { self.new ≡ closed self.old session }
        ensures lasts { copies.new.lasts ≡ map.remove copies.old.lasts session }
        ensures freed { Leaves (freed (of_session session)) copies.old copies.new }
        ensures have { HaveSessions self.new copies.new }
        ensures each { steps.old + 2 * length_of copies.old session ≤ steps.new }
        ensures at_most { steps.new ≤ steps.old + (2 * length_of copies.old session + 1) }
    {
        copies.remove_session(session, steps);
        close(&mut self.register, session);
    }

    // A session that is there.
    fn record(&self, session: SessionNo) -> &SessionRecord
        requires { IsSome (session_at self.now session) }
        ensures { IsSomeAnd (session_at self.now session) (λ x. (result.now.name ≡ x.name) × (result.now.kind ≡ x.kind) × (result.now.access ≡ x.access) × (result.now.association ≡ x.association)) }
    {
        match rows::row(&self.register.rows, session.0) {
            Some(record) => record,
            None => unreachable!(),
        }
    }

    /// Whether a session is an owner itself, and which.
    pub fn kind(&self, session: SessionNo) -> Kind
        requires { IsSome (session_at self.now session) }
        ensures { IsSomeAnd (session_at self.now session) (λ x. result ≡ x.kind) }
    {
        self.record(session).kind
    }

    /// Whether a session may change objects.
    pub fn access(&self, session: SessionNo) -> Access
        requires { IsSome (session_at self.now session) }
        ensures { IsSomeAnd (session_at self.now session) (λ x. result ≡ x.access) }
    {
        self.record(session).access
    }

    /// How a session is associated.
    pub fn status(&self, session: SessionNo) -> Association
        requires { IsSome (session_at self.now session) }
        ensures { IsSomeAnd (session_at self.now session) (λ x. result ≡ x.association) }
    {
        self.record(session).association
    }

    /// Whether a session is an owner itself, whether it may change objects, and how it is associated: `kind`, `access` and
    /// `status` by one look-up.
    pub fn standing(&self, session: SessionNo) -> Standing
        requires { IsSome (session_at self.now session) }
        ensures { IsSomeAnd (session_at self.now session) (λ x. (result.kind ≡ x.kind) × (result.access ≡ x.access) × (result.association ≡ x.association)) }
    {
        self.record(session).standing()
    }

    /// The name of a session.
    pub fn name(&self, session: SessionNo) -> &[u8]
        requires { IsSome (session_at self.now session) }
        ensures { IsSomeAnd (session_at self.now session) (λ x. result.now ≡ x.name) }
    {
        self.record(session).name.as_slice()
    }

    /// The session that was opened first of those that are active or suspended with the transaction. None exactly where
    /// there is no such session. It looks at each session.
    pub fn first_open(&self, owner: OwnerNo) -> Option<SessionNo>
        ensures { result ≡ first_open self.now owner }
    {
        rows::first_open(&self.register.rows, owner)
    }

    /// How many sessions there are.
    pub fn count(&self) -> u32
        ensures { result ≡ map.len self.now.sessions }
    {
        self.register.rows.len() as u32
    }

    // A session has another association.
    fn associate(&mut self, session: SessionNo, association: Association)
        requires { IsSome (session_at self.old session) }
        ensures { self.new ≡ associated self.old session association }
    {
        rows::set(&mut self.register.rows, session.0, association);
    }

    /// A transactional session that is in no transaction, or suspended with this one, is active with it.
    pub fn start(&mut self, session: SessionNo, owner: OwnerNo)
        requires { IsSomeAnd (session_at self.old session) (MayStart owner) }
        ensures { self.new ≡ associated self.old session (association.Active owner) }
    {
        self.associate(session, Association::Active(owner));
    }

    /// A session that is active is suspended with its transaction.
    pub fn suspend(&mut self, session: SessionNo)
        requires { IsSomeAnd (session_at self.old session) (λ x. IsSome (active_in x.association)) }
        ensures { IsSomeAnd (session_at self.old session) (λ x. IsSomeAnd (active_in x.association) (λ n. self.new ≡ associated self.old session (association.Suspended n))) }
    {
        match self.status(session) {
            Association::Active(owner) => { self.associate(session, Association::Suspended(owner)) }
            _ => unreachable!(),
        }
    }

    /// A session that is active or suspended is ending with its transaction, and its entries stand on no body. It takes no
    /// memory, two steps for each entry of the session that stands on a body, and at most one more.
    pub fn end<L: Ledger>(
        &mut self,
        copies: &mut Incarnations,
        session: SessionNo,
        steps: &mut Steps<L>,
    )
        requires open { IsSomeAnd (session_at self.old session) (λ x. IsSome (open_in x.association)) }
        requires copies { HaveSessions self.old copies.old }
        ensures ending { IsSomeAnd (session_at self.old session) (λ x. IsSomeAnd (open_in x.association) (λ n. self.new ≡ associated self.old session (association.Ending n))) }
        ensures lasts { copies.new.lasts ≡ copies.old.lasts }
        ensures left { Leaves (loosened (of_session session)) copies.old copies.new }
        ensures have { HaveSessions self.new copies.new }
        ensures each { steps.old + 2 * attached_of copies.old session ≤ steps.new }
        ensures at_most { steps.new ≤ steps.old + (2 * attached_of copies.old session + 1) }
    {
        let Some(owner) = self.record(session).association.open() else {
            unreachable!()
        };
        self.associate(session, Association::Ending(owner));
        copies.detach_session(session, steps);
    }

    /// A transaction is gone: each session that was associated with it is in none, and its entries stand on no body. It
    /// looks at each session, and takes no memory.
    pub fn finish<L: Ledger>(
        &mut self,
        copies: &mut Incarnations,
        owner: OwnerNo,
        steps: &mut Steps<L>,
    )
        requires { HaveSessions self.old copies.old }
        ensures finished { self.new ≡ finished self.old owner }
        ensures lasts { copies.new.lasts ≡ copies.old.lasts }
        ensures left { Leaves (loosened (of_sessions (is_in owner) self.old)) copies.old copies.new }
        ensures have { HaveSessions self.new copies.new }
    {
        detach_all(&self.register.rows, copies, owner, steps);
        rows::leave(&mut self.register.rows, owner);
    }

    /// The entries of a basic session that stand on its own copies stand on no body. It takes no memory, two steps for each
    /// entry of the session that stands on a body, and at most one more.
    pub fn refresh<L: Ledger>(
        &self,
        copies: &mut Incarnations,
        session: SessionNo,
        steps: &mut Steps<L>,
    )
        requires basic { IsSomeAnd (session_at self.now session) (λ x. IsTrue (is_basic x)) }
        requires copies { HaveSessions self.now copies.old }
        ensures lasts { copies.new.lasts ≡ copies.old.lasts }
        ensures left { Leaves (loosened (both (of_session session) (in_view (Kept session)))) copies.old copies.new }
        ensures have { HaveSessions self.now copies.new }
        ensures each { steps.old + 2 * attached_of copies.old session ≤ steps.new }
        ensures at_most { steps.new ≤ steps.old + (2 * attached_of copies.old session + 1) }
    {
        copies.detach_view(session, View::Kept(session), steps);
    }

    /// In the basic session that is the owner, and in all sessions associated with it, the entry for the object stands on
    /// no body where it stood on the committed one or on the session's own copy. No other entry changes. It looks at each
    /// session, takes no memory, and at most four steps for each session.
    pub fn detach_pid<L: Ledger>(
        &self,
        copies: &mut Incarnations,
        owner: OwnerNo,
        pid: Pid,
        steps: &mut Steps<L>,
    )
        requires { HaveSessions self.now copies.old }
        ensures lasts { copies.new.lasts ≡ copies.old.lasts }
        ensures left { Leaves (loosened (both (of_sessions (belongs_to owner) self.now) (on_unchanged pid))) copies.old copies.new }
        ensures have { HaveSessions self.now copies.new }
        ensures steps { steps.new ≤ steps.old + 4 * map.len self.now.sessions }
    {
        detach_pid(&self.register.rows, copies, owner, pid, steps);
    }
}
