// Entries of a session or of a body, one after the other.
ghost use Rattle.std.specs.Prelude.{◌≡◌, ◌+◌, ◌*◌, ◌≤◌};
ghost use Rattle.incarnations.specs.Meaning.{Leaves, loosened, freed, of_session, on_body, both, entries_on, length_of, attached_of};
ghost use Rattle.incarnations.specs.Stock.{IsSound, meaning_of, chosen_by};

use crate::erasing::erase;
use crate::loosening::turn;
use crate::names::{BodyName, Slot};
use crate::stock::Stock;
use pss_base::{SessionNo, Steps};
use pss_machine::View;
use std::sync::ledger::Ledger;

/// The entries of a session on bodies of the chosen view leave them, or all where no view is chosen. Those that stand on a
/// body are first in the session's column, and no others are looked at. One that leaves its body comes last there: the
/// node behind it is read before.
pub fn sweep<L: Ledger>(
    stock: &mut Stock,
    session: SessionNo,
    chosen: Option<View>,
    steps: &mut Steps<L>,
)
    requires { IsSound stock.old }
    ensures sound { IsSound stock.new }
    ensures lasts { (meaning_of stock.new).lasts ≡ (meaning_of stock.old).lasts }
    ensures left { Leaves (loosened (both (of_session session) (chosen_by chosen))) (meaning_of stock.old) (meaning_of stock.new) }
    ensures each { steps.old + 2 * attached_of (meaning_of stock.old) session ≤ steps.new }
    ensures at_most { steps.new ≤ steps.old + (2 * attached_of (meaning_of stock.old) session + 1) }
{
    let Some(home) = stock.sessions.get(session) else {
        return;
    };
    let mut next = stock.pool.first_of_col(home.col, steps);
    for _ in 0..home.attached {
        let Some(node) = next else { unreachable!() };
        next = stock.pool.next_in_col(node, steps);
        let slot = *stock.pool.item(node);
        let Some(was) = stock.entries.get(slot) else {
            unreachable!()
        };
        steps.tick();
        turn(stock, slot, was, chosen);
    }
}

/// The entries of a session go.
pub fn free<L: Ledger>(stock: &mut Stock, session: SessionNo, steps: &mut Steps<L>)
    requires { IsSound stock.old }
    ensures sound { IsSound stock.new }
    ensures lasts { (meaning_of stock.new).lasts ≡ (meaning_of stock.old).lasts }
    ensures left { Leaves (freed (of_session session)) (meaning_of stock.old) (meaning_of stock.new) }
    ensures each { steps.old + 2 * length_of (meaning_of stock.old) session ≤ steps.new }
    ensures at_most { steps.new ≤ steps.old + (2 * length_of (meaning_of stock.old) session + 1) }
{
    let Some(home) = stock.sessions.get(session) else {
        return;
    };
    for _ in 0..home.entries {
        let Some(node) = stock.pool.first_of_col(home.col, steps) else {
            unreachable!()
        };
        let slot = *stock.pool.item(node);
        let Some(was) = stock.entries.get(slot) else {
            unreachable!()
        };
        steps.tick();
        erase(stock, slot, was);
    }
}

/// The entries on a body leave it, and it goes.
#[inline(always)]
pub fn clear<L: Ledger>(stock: &mut Stock, name: BodyName, steps: &mut Steps<L>)
    requires { IsSound stock.old }
    ensures sound { IsSound stock.new }
    ensures lasts { (meaning_of stock.new).lasts ≡ (meaning_of stock.old).lasts }
    ensures left { Leaves (loosened (on_body name)) (meaning_of stock.old) (meaning_of stock.new) }
    ensures each { steps.old + 2 * entries_on (meaning_of stock.old) name ≤ steps.new }
    ensures at_most { steps.new ≤ steps.old + (2 * entries_on (meaning_of stock.old) name + 1) }
{
    let Some(place) = stock.bodies.place(name) else {
        return;
    };
    for _ in 0..place.entries {
        let Some(node) = stock.pool.first_of_row(place.row, steps) else {
            unreachable!()
        };
        let slot = *stock.pool.item(node);
        let Some(was) = stock.entries.get(slot) else {
            unreachable!()
        };
        steps.tick();
        turn(stock, slot, was, None);
    }
}
