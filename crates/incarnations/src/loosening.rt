// Entries come to stand on no body.
ghost use Rattle.std.specs.Prelude.{◌≡◌, Some, None};
ghost use Rattle.std.specs.FinMap.{get};
ghost use Rattle.incarnations.specs.Meaning.{with_view};
ghost use Rattle.incarnations.specs.Stock.{IsSound, IsSet, IsPassed, KeepsCols, KeepsRows, meaning_of, asks, turned_entry};

use crate::loads::lower;
use crate::moves::move_node;
use crate::names::{BodyName, Entry, EntryRecord, Slot};
use crate::stock::Stock;
use pss_machine::View;

/// An entry leaves its body, and comes last in its session.
pub fn loosen(stock: &mut Stock, slot: Slot, was: EntryRecord, view: View)
    requires sound { IsSound stock.old }
    requires entry { get stock.old.entries slot ≡ Some was }
    requires view { was.entry.view ≡ Some view }
    ensures sound { IsSound stock.new }
    ensures entries { IsSet (meaning_of stock.old) (meaning_of stock.new) slot (with_view None was.entry) }
    ensures cols { KeepsCols stock.old stock.new }
    ensures rows { KeepsRows stock.old stock.new }
    ensures passed { IsPassed stock.old.pool stock.new.pool was.node }
{
    let Some(home) = stock.sessions.get(slot.session) else {
        unreachable!()
    };
    let node = move_node(&mut stock.pool, was.node, home.row);
    let pid = was.entry.pid;
    let entry = Entry {
        pid,
        count: was.entry.count,
        view: None,
    };
    stock.entries.set(slot, EntryRecord { entry, node });
    stock.sessions.count_down(slot.session);
    stock.attached -= 1;
    lower(stock, BodyName { pid, view });
}

/// A view is asked for, or any is.
pub fn is_asked(chosen: Option<View>, view: View) -> bool
    ensures { result ≡ asks chosen view }
{
    match chosen {
        Some(asked) => asked == view,
        None => true,
    }
}

/// An entry leaves its body, and comes last in its session, where the body is of the chosen view, or no view is chosen.
pub fn turn(stock: &mut Stock, slot: Slot, was: EntryRecord, chosen: Option<View>)
    requires sound { IsSound stock.old }
    requires entry { get stock.old.entries slot ≡ Some was }
    ensures sound { IsSound stock.new }
    ensures entries { IsSet (meaning_of stock.old) (meaning_of stock.new) slot (turned_entry chosen was.entry) }
    ensures cols { KeepsCols stock.old stock.new }
    ensures rows { KeepsRows stock.old stock.new }
    ensures passed { IsPassed stock.old.pool stock.new.pool was.node }
{
    if let Some(view) = was.entry.view {
        if is_asked(chosen, view) {
            loosen(stock, slot, was, view);
        }
    }
}
