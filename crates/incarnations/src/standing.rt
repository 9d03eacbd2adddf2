// Entries come to stand on bodies.
ghost use Rattle.std.specs.Prelude.{◌≡◌, Some, None, IsSome, OnOk, OnErr};
ghost use Rattle.std.specs.FinMap.{get};
ghost use Rattle.incarnations.specs.Meaning.{body, with_entry, with_view, attached};
ghost use Rattle.incarnations.specs.Stock.{IsSound, meaning_of};

use crate::moves::move_ahead;
use crate::names::{BodyName, BodyPlace, BodyRecord, Entry, EntryRecord, Slot};
use crate::stock::Stock;
use pss_base::NoMemory;
use pss_machine::View;
use type_layout::Record;

/// An entry that stands on no body comes to stand on one that is there, and comes first in its session.
pub fn share(stock: &mut Stock, slot: Slot, was: EntryRecord, view: View)
    requires sound { IsSound stock.old }
    requires entry { get stock.old.entries slot ≡ Some was }
    requires loose { was.entry.view ≡ None }
    requires body { IsSome (get stock.old.bodies (body was.entry.pid view)) }
    ensures sound { IsSound stock.new }
    ensures shared { meaning_of stock.new ≡ with_entry (meaning_of stock.old) slot (with_view (Some view) was.entry) }
{
    // Each count is at most the number of all entries.
    let _ = stock.entries.len();
    let pid = was.entry.pid;
    let name = BodyName { pid, view };
    let Some(place) = stock.bodies.place(name) else {
        unreachable!()
    };
    let node = move_ahead(&mut stock.pool, was.node, place.row);
    let entry = Entry {
        pid,
        count: was.entry.count,
        view: Some(view),
    };
    stock.entries.set(slot, EntryRecord { entry, node });
    stock.sessions.count_up(slot.session);
    stock.bodies.set_entries(name, place.entries + 1);
    stock.attached += 1;
}

/// An entry that stands on no body comes to stand on a new one, and comes first in its session. `NoMemory`: the entries
/// and bodies are as before.
pub fn attach(
    stock: &mut Stock,
    slot: Slot,
    was: EntryRecord,
    view: View,
    value: Record,
) -> Result<(), NoMemory>
    requires sound { IsSound stock.old }
    requires entry { get stock.old.entries slot ≡ Some was }
    requires loose { was.entry.view ≡ None }
    requires free { get stock.old.bodies (body was.entry.pid view) ≡ None }
    ensures sound { IsSound stock.new }
    ensures ok { OnOk result (meaning_of stock.new ≡ attached (meaning_of stock.old) slot view value was.entry) }
    ensures err { OnErr result (meaning_of stock.new ≡ meaning_of stock.old) }
{
    // Each count is at most the number of all entries.
    let _ = stock.entries.len();
    let pid = was.entry.pid;
    let row = stock.pool.add_row()?;
    let place = BodyPlace { row, entries: 1 };
    match stock
        .bodies
        .add(BodyName { pid, view }, BodyRecord { place, value })
    {
        Ok(()) => {
            let node = move_ahead(&mut stock.pool, was.node, row);
            let entry = Entry {
                pid,
                count: was.entry.count,
                view: Some(view),
            };
            stock.entries.set(slot, EntryRecord { entry, node });
            stock.sessions.count_up(slot.session);
            stock.attached += 1;
            Ok(())
        }
        Err(NoMemory) => {
            stock.pool.remove_row(row);
            Err(NoMemory)
        }
    }
}
