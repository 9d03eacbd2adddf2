// The sessions by number, in the order in which they were opened.
ghost use Rattle.std.specs.Prelude.{◌≡◌, ◌+◌, ◌<◌, ◌++◌, ◌∷◌, [], length, map, find, Some, None, IsSome, IsSomeAnd, MatchOption, OnOk, is_some, option_copied, if◌then◌else◌};
ghost use Rattle.std.specs.Option.{option_map};
ghost use Rattle.std.specs.Map.{keys_of};
ghost use Rattle.indexmap.specs.IndexMap.{spare};
ghost use Rattle.pss_session.specs.inner.Rows.{row_at, with_state, is_open_row, left_row, without, Turns};
ghost use Rattle.pss_machine.specs.Sessions.{is_owner, open_in, transaction_of};

use crate::register::SessionRecord;
use indexmap::IndexMap;
use pss_base::{NoMemory, OwnerNo, SessionNo};
use pss_machine::Association;
use std::alloc::Global;
use std::hash::BuildHasherDefault;
use table_hash::NumberHasher;

pub type Rows = IndexMap<u32, SessionRecord, BuildHasherDefault<NumberHasher>>;

pub fn empty(alloc: Global) -> Rows
    ensures { result.entries ≡ [] }
{
    IndexMap::with_hasher(alloc, BuildHasherDefault::new())
}

/// The session of a number, where there is one.
pub fn row(rows: &Rows, number: u32) -> Option<&SessionRecord>
    ensures { option_copied result ≡ row_at rows.now.entries number }
{
    rows.get(&number)
}

/// The session of a number and its place, where there is one.
pub fn find_row(rows: &Rows, number: u32) -> Option<(usize, &SessionRecord)>
    ensures { MatchOption result (row_at rows.now.entries number ≡ None) (λ found. row_at rows.now.entries number ≡ Some found.1.now) }
{
    match rows.get_full(&number) {
        Some((place, _, record)) => Some((place, record)),
        None => None,
    }
}

/// Makes room for one more. Without memory the sessions are as before.
pub fn reserve(rows: &mut Rows) -> Result<(), NoMemory>
    ensures entries { rows.new.entries ≡ rows.old.entries }
    ensures ok { OnOk result (0 < spare rows.new) }
{
    rows.reserve(1)?;
    Ok(())
}

/// Puts a session last, for which there is room. It takes no memory.
pub fn put(rows: &mut Rows, number: u32, session: SessionRecord)
    requires room { 0 < spare rows.old }
    requires free { row_at rows.old.entries number ≡ None }
    ensures { rows.new.entries ≡ rows.old.entries ++ (number, session) ∷ [] }
{
    match rows.insert(number, session) {
        Ok(_) => {}
        Err(_) => unreachable!(),
    }
}

/// Takes a session out. The others stay in their order.
pub fn take(rows: &mut Rows, number: u32) -> Option<SessionRecord>
    ensures value { result ≡ row_at rows.old.entries number }
    ensures rest { rows.new.entries ≡ without number rows.old.entries }
    ensures turns { Turns rows.old.entries rows.new.entries number None }
    ensures len { length rows.new.entries + (if is_some result then 1 else 0) ≡ length rows.old.entries }
{
    rows.shift_remove(&number)
}

/// Gives a session another association.
pub fn set(rows: &mut Rows, number: u32, association: Association)
    requires { IsSome (row_at rows.old.entries number) }
    ensures keys { keys_of rows.new.entries ≡ keys_of rows.old.entries }
    ensures turns { IsSomeAnd (row_at rows.old.entries number) (λ r. Turns rows.old.entries rows.new.entries number (Some (with_state association r))) }
{
    match rows.get_mut(&number) {
        Some(record) => record.association = association,
        None => unreachable!(),
    }
}

impl SessionRecord {
    /// Whether it is active or suspended with the transaction.
    pub fn is_open_in(&self, owner: OwnerNo) -> bool
        ensures { result ≡ is_owner owner (open_in self.now.association) }
    {
        match self.association.open() {
            Some(with) => with == owner,
            None => false,
        }
    }

    /// Whether it is in the transaction.
    pub fn is_in(&self, owner: OwnerNo) -> bool
        ensures { result ≡ is_owner owner (transaction_of self.now.association) }
    {
        match self.association.transaction() {
            Some(with) => with == owner,
            None => false,
        }
    }

    // It is in no transaction, where it was in this one.
    fn leave(&mut self, owner: OwnerNo)
        ensures { self.new ≡ left_row owner self.old }
    {
        if self.is_in(owner) {
            self.association = Association::NoTransaction;
        }
    }
}

/// The least session that is active or suspended with the transaction.
pub fn first_open(rows: &Rows, owner: OwnerNo) -> Option<SessionNo>
    ensures { result ≡ option_map (λ e. record { 0 = e.0 }) (find (is_open_row owner) rows.now.entries) }
{
    for at in 0..rows.len() {
        if let Some((number, record)) = rows.get_index(at) {
            if record.is_open_in(owner) {
                return Some(SessionNo(*number));
            }
        }
    }
    None
}

/// No session is in the transaction.
pub fn leave(rows: &mut Rows, owner: OwnerNo)
    ensures { rows.new.entries ≡ map (λ e. (e.0, left_row owner e.1)) rows.old.entries }
{
    for at in 0..rows.len() {
        if let Some(record) = rows.get_index_mut(at) {
            record.leave(owner);
        }
    }
}
