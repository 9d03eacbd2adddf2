// The sessions by number.
ghost use Rattle.std.specs.Prelude.{◌≡◌, ◌<◌, ◌+◌, ◌-◌, ◌^◌, IsSome, IsSomeAnd, OnOk, OnErr};
ghost use Rattle.std.specs.FinMap as map;
ghost use Rattle.recent_table.specs.Maps.{IsWith};
ghost use Rattle.incarnations.specs.Records.{with_attached};

use crate::names::SessionRecord;
use pss_base::{NoMemory, SessionNo};
use recent_table::RecentTable;
use std::alloc::Global;
use std::marker::Model;
use table_hash::NumberHasher;

/// A finite map from sessions to their records.
#[derive(Drop)]
pub struct SessionTable {
    table: RecentTable<SessionNo, SessionRecord, NumberHasher>,
}

impl Model for SessionTable {
    ghost use Rattle.std.specs.FinMap.{FinMap, from_entries, code};
    ghost use Rattle.incarnations.specs.declared.names.SessionRecord.{SessionRecord};
    ghost use Rattle.incarnations.specs.Keys.{session_cmp};
    ghost use Rattle.incarnations.specs.Codes.{session_code, session_record_code};

    ghost Value = { FinMap session_cmp SessionRecord };

    ghost coded = { code session_code session_record_code };

    ghost view = { λ t. from_entries t.table };
}

impl SessionTable {
    pub fn new(alloc: Global) -> SessionTable
        ensures { result ≡ map.empty }
    {
        SessionTable {
            table: RecentTable::new(alloc),
        }
    }

    pub fn get(&self, session: SessionNo) -> Option<SessionRecord>
        ensures { result ≡ map.get self.now session }
    {
        self.table.get(session).copied()
    }

    /// Puts a record at a session that has none. `NoMemory`: the table is as before.
    pub fn add(&mut self, session: SessionNo, put: SessionRecord) -> Result<(), NoMemory>
        ensures ok { OnOk result (self.new ≡ map.insert self.old session put) }
        ensures err { OnErr result (self.new ≡ self.old) }
    {
        self.table.insert(session, put)?;
        Ok(())
    }

    /// Puts another record at a session that has one, which is hashed only where it was neither the one found last nor the
    /// next.
    pub fn set(&mut self, session: SessionNo, put: SessionRecord)
        requires { IsSome (map.get self.old session) }
        ensures { self.new ≡ map.insert self.old session put }
    {
        self.table.set(session, put);
    }

    /// One more of a session's entries stands on a body. It is counted where the record stands.
    pub fn count_up(&mut self, session: SessionNo)
        requires { IsSomeAnd (map.get self.old session) (λ r. r.attached < 2 ^ 63) }
        ensures { IsWith self.old self.new session (λ r. with_attached (r.attached + 1) r) }
    {
        match self.table.get_mut(session) {
            Some(record) => record.attached += 1,
            None => unreachable!(),
        }
    }

    /// One fewer of a session's entries stands on a body.
    pub fn count_down(&mut self, session: SessionNo)
        requires { IsSomeAnd (map.get self.old session) (λ r. 0 < r.attached) }
        ensures { IsWith self.old self.new session (λ r. with_attached (r.attached - 1) r) }
    {
        match self.table.get_mut(session) {
            Some(record) => record.attached -= 1,
            None => unreachable!(),
        }
    }

    pub fn remove(&mut self, session: SessionNo)
        ensures { self.new ≡ map.remove self.old session }
    {
        self.table.remove(session);
    }
}
