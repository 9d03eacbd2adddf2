// Owners as they are called.
ghost use Rattle.std.specs.Prelude.{ℕ, ◌≡◌, ◌-◌, ◌<◌, ◌^◌, None, false, not, IsSome, IsSomeAnd, IfOk, OnOk, OnErr, option_copied};
ghost use Rattle.std.specs.FinMap as map;
ghost use Rattle.pss_machine.specs.declared.level.Level.TheVariants as level;
ghost use Rattle.pss_machine.specs.Kept as machine;
ghost use Rattle.pss_machine.specs.Kept.{Kept};
ghost use Rattle.pss_machine.specs.Owners.{is_basic};
ghost use Rattle.owner_titles.specs.Meaning.{nobody, come, gone, changed, marked, one_more, unspent, transaction_named, transactions, AreTitles};

use crate::called::Called;
use crate::table::TitleTable;
use key_index::KeyIndex;
use pss_base::{Bytes, NoMemory, OwnerNo};
use pss_machine::Level;
use std::alloc::Global;
use std::marker::Model;

/// How the transactions and the basic sessions are called as owners, and what is counted of each.
///
/// An owner has a number, in the order in which owners came. No two transactions have one name; a basic session's name
/// is that of the session, and is not looked for here.
#[derive(Drop)]
pub struct Titles {
    table: TitleTable,
    // The numbers of the transactions by name.
    names: KeyIndex,
    // The last number that was given.
    last: u32,
    transactions: u32,
}

impl Model for Titles {
    ghost use Rattle.std.specs.Prelude.{◌+◌};
    ghost use Rattle.owner_titles.specs.Meaning.{Meaning};
    ghost use Rattle.owner_titles.specs.Codes.{meaning_code};
    ghost use Rattle.owner_titles.specs.inner.Register.{IsSound};

    ghost Value = { Meaning };

    ghost coded = { meaning_code };

    ghost view = { λ t. record { called = t.table; next = t.last + 1 } };

    ghost invariant = { λ t. IsSound t.table t.names.held t.last t.transactions };
}

// It is the level of a transaction, not that of basic sessions.
fn is_transaction(level: Level) -> bool
    ensures { result ≡ not (is_basic level) }
{
    match level {
        Level::Serializable => true,
        Level::ReadCommitted => true,
        Level::Basic => false,
    }
}

impl Titles {
    /// No owner. It takes no memory.
    pub fn new(alloc: Global) -> Titles
        ensures { result ≡ nobody }
    {
        Titles {
            table: TitleTable::new(alloc),
            names: KeyIndex::new(alloc),
            last: 0,
            transactions: 0,
        }
    }

    /// Whatever was done, each owner's number is below that of the next one. The call does nothing: its contract is the law.
    pub fn numbers_hold(&self)
        ensures { (n : ℕ) → IsSome (map.get self.now.called n) → n < self.now.next }
    {
        let _ = &self.table;
    }

    /// An owner more, that of a basic session of this name. The answer is its number, the next one.
    ///
    /// `NoMemory`: all is as before.
    pub fn add_session(&mut self, name: Bytes) -> Result<OwnerNo, NoMemory>
        requires { self.old.next < 2 ^ 32 }
        ensures number { IfOk result (λ n. n.0 ≡ self.old.next) }
        ensures ok { OnOk result (self.new ≡ come self.old name level.Basic) }
        ensures err { OnErr result (self.new ≡ self.old) }
    {
        let owner = OwnerNo(self.last + 1);
        let called = Called {
            name,
            level: Level::Basic,
            failed: false,
            commands: 0,
        };
        self.table.add(owner, called)?;
        self.last = owner.0;
        Ok(owner)
    }

    /// An owner more, a transaction of this name, which no transaction has. The answer is its number, the next one.
    ///
    /// `NoMemory`: all is as before.
    pub fn add_transaction(&mut self, name: Bytes, level: Level) -> Result<OwnerNo, NoMemory>
        requires number { self.old.next < 2 ^ 32 }
        requires level { is_basic level ≡ false }
        requires name { transaction_named self.old name ≡ None }
        ensures number { IfOk result (λ n. n.0 ≡ self.old.next) }
        ensures ok { OnOk result (self.new ≡ come self.old name level) }
        ensures err { OnErr result (self.new ≡ self.old) }
    {
        let owner = OwnerNo(self.last + 1);
        self.names.reserve(name.as_slice())?;
        let key = name.copy()?;
        let called = Called {
            name,
            level,
            failed: false,
            commands: 0,
        };
        self.table.add(owner, called)?;
        self.names.put_reserved(key.as_slice(), owner.0 as u64);
        self.last = owner.0;
        self.transactions += 1;
        Ok(owner)
    }

    /// An owner goes, and a transaction's name is free. It takes no memory.
    pub fn remove(&mut self, owner: OwnerNo)
        ensures { self.new ≡ gone self.old owner }
    {
        if let Some(called) = self.table.remove(owner) {
            if is_transaction(called.level) {
                let _ = self.names.take(called.name.as_slice());
                self.transactions -= 1;
            }
        }
    }

    /// How an owner is called. None exactly where there is no such owner.
    pub fn get(&self, owner: OwnerNo) -> Option<&Called>
        ensures { option_copied result ≡ map.get self.now.called owner.0 }
    {
        self.table.get(owner)
    }

    /// The transaction of a name. None exactly where no transaction has it.
    pub fn find(&self, name: &[u8]) -> Option<OwnerNo>
        ensures here { result ≡ transaction_named self.now name.now }
        ensures machine { (k : Kept) → AreTitles self.now k → result ≡ machine.transaction_named k name.now }
    {
        match self.names.find(name) {
            Some(number) => Some(OwnerNo(number as u32)),
            None => None,
        }
    }

    /// How many transactions there are.
    pub fn transactions(&self) -> u32
        ensures here { result ≡ transactions self.now }
        ensures machine { (k : Kept) → AreTitles self.now k → result ≡ machine.transaction_count k }
    {
        self.transactions
    }

    /// An owner is marked to be rolled back, where this is so; one that is marked stays marked.
    pub fn mark(&mut self, owner: OwnerNo, failed: bool)
        requires { IsSome (map.get self.old.called owner.0) }
        ensures { self.new ≡ changed (marked failed) self.old owner }
    {
        self.table.mark(owner, failed);
    }

    /// An owner has done one data command more.
    #[inline(always)]
    pub fn count(&mut self, owner: OwnerNo)
        requires { IsSomeAnd (map.get self.old.called owner.0) (λ called. called.commands < 2 ^ 32 - 1) }
        ensures { self.new ≡ changed one_more self.old owner }
    {
        self.table.count(owner);
    }

    /// No data command of an owner is counted any more.
    pub fn unspend(&mut self, owner: OwnerNo)
        requires { IsSome (map.get self.old.called owner.0) }
        ensures { self.new ≡ changed unspent self.old owner }
    {
        self.table.unspend(owner);
    }
}
