// Entries go.
ghost use Rattle.std.specs.Prelude.{◌≡◌, ◌<◌, Some, is_some, true};
ghost use Rattle.std.specs.FinMap.{get};
ghost use Rattle.incarnations.specs.Records.{without_one};
ghost use Rattle.incarnations.specs.Stock.{IsSound, IsErased, KeepsCols, meaning_of};

use crate::loads::lower;
use crate::names::{BodyName, EntryRecord, ObjectName, SessionRecord, Slot};
use crate::stock::Stock;
use pss_machine::View;

// A session has one entry fewer, which stood on a body or on none.
fn less_one(home: SessionRecord, view: Option<View>) -> SessionRecord
    requires entries { 0 < home.entries }
    requires attached { is_some view ≡ true → 0 < home.attached }
    ensures { result ≡ without_one (is_some view) home }
{
    let stood = match view {
        Some(_) => 1,
        None => 0,
    };
    SessionRecord {
        col: home.col,
        row: home.row,
        last: home.last,
        entries: home.entries - 1,
        attached: home.attached - stood,
    }
}

/// An entry goes, and leaves the body that it stands on.
#[inline(always)]
pub fn erase(stock: &mut Stock, slot: Slot, was: EntryRecord)
    requires sound { IsSound stock.old }
    requires entry { get stock.old.entries slot ≡ Some was }
    ensures sound { IsSound stock.new }
    ensures cols { KeepsCols stock.old stock.new }
    ensures erased { IsErased (meaning_of stock.old) (meaning_of stock.new) slot }
{
    let Some(home) = stock.sessions.get(slot.session) else {
        unreachable!()
    };
    let pid = was.entry.pid;
    let _ = stock.pool.unlink_uncounted(was.node);
    stock.entries.remove(slot);
    stock.objects.remove(ObjectName {
        session: slot.session,
        pid,
    });
    stock
        .sessions
        .set(slot.session, less_one(home, was.entry.view));
    match was.entry.view {
        Some(view) => {
            stock.attached -= 1;
            lower(stock, BodyName { pid, view });
        }
        None => (),
    }
}
