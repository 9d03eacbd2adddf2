// Entries come, and are counted.
ghost use Rattle.std.specs.Prelude.{◌≡◌, ◌<◌, ◌-◌, ◌^◌, Some, None, IfOk, OnOk, OnErr};
ghost use Rattle.std.specs.FinMap.{get, insert};
ghost use Rattle.incarnations.specs.Meaning.{with_entry, with_count, IsNew};
ghost use Rattle.incarnations.specs.Stock.{IsSound, meaning_of};

use crate::names::{Entry, EntryRecord, ObjectName, SessionRecord, Slot};
use crate::stock::Stock;
use crate::tables::entries::EntryTable;
use crate::tables::objects::ObjectTable;
use pss_base::{NoMemory, Pid, SessionNo};

/// An entry has another count.
pub fn recount(stock: &mut Stock, slot: Slot, was: EntryRecord, count: u32)
    requires sound { IsSound stock.old }
    requires entry { get stock.old.entries slot ≡ Some was }
    requires some { 0 < count }
    ensures sound { IsSound stock.new }
    ensures counted { meaning_of stock.new ≡ with_entry (meaning_of stock.old) slot (with_count count was.entry) }
{
    let entry = Entry {
        pid: was.entry.pid,
        count,
        view: was.entry.view,
    };
    let node = was.node;
    stock.entries.set(slot, EntryRecord { entry, node });
}

// Both tables have the entry, or both are as before.
fn enter_tables(
    entries: &mut EntryTable,
    objects: &mut ObjectTable,
    slot: Slot,
    put: EntryRecord,
) -> Result<(), NoMemory>
    requires { get objects.old (record { session = slot.session; pid = put.entry.pid }) ≡ None }
    ensures entries { OnOk result (entries.new ≡ insert entries.old slot put) }
    ensures objects { OnOk result (objects.new ≡ insert objects.old (record { session = slot.session; pid = put.entry.pid }) slot.number) }
    ensures entries_stay { OnErr result (entries.new ≡ entries.old) }
    ensures objects_stay { OnErr result (objects.new ≡ objects.old) }
{
    let object = ObjectName {
        session: slot.session,
        pid: put.entry.pid,
    };
    objects.add(object, slot.number)?;
    match entries.add(slot, put) {
        Ok(()) => Ok(()),
        Err(NoMemory) => {
            objects.remove(object);
            Err(NoMemory)
        }
    }
}

/// A session obtains an object for which it has no entry. `NoMemory`: the entries are as before.
pub fn enter(
    stock: &mut Stock,
    session: SessionNo,
    home: SessionRecord,
    pid: Pid,
) -> Result<u32, NoMemory>
    requires sound { IsSound stock.old }
    requires home { get stock.old.sessions session ≡ Some home }
    requires free { get stock.old.objects (record { session = session; pid = pid }) ≡ None }
    requires room { home.entries < 65535 }
    requires number { home.last < 2 ^ 32 - 1 }
    ensures sound { IsSound stock.new }
    ensures ok { IfOk result (λ n. IsNew (meaning_of stock.old) (meaning_of stock.new) session pid n) }
    ensures err { OnErr result (meaning_of stock.new ≡ meaning_of stock.old) }
{
    stock.pool.reserve(1)?;
    let number = home.last + 1;
    let slot = Slot { session, number };
    let node = stock.pool.insert_reserved(home.row, home.col, slot);
    let entry = Entry {
        pid,
        count: 1,
        view: None,
    };
    match enter_tables(
        &mut stock.entries,
        &mut stock.objects,
        slot,
        EntryRecord { entry, node },
    ) {
        Ok(()) => {
            stock.sessions.set(
                session,
                SessionRecord {
                    col: home.col,
                    row: home.row,
                    last: number,
                    entries: home.entries + 1,
                    attached: home.attached,
                },
            );
            Ok(number)
        }
        Err(NoMemory) => {
            let _ = stock.pool.unlink_uncounted(node);
            Err(NoMemory)
        }
    }
}
