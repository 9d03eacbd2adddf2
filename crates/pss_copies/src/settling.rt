// Entries leave the bodies that a commit makes old.
ghost use Rattle.std.specs.Prelude.{◌≡◌};
ghost use Rattle.incarnations.specs.Meaning.{Leaves, loosened};
ghost use Rattle.pss_copies.specs.Settling.{on_bodies};

use incarnations::Incarnations;
use pss_base::{Pid, Steps};
use pss_machine::View;
use std::sync::ledger::Ledger;

/// The entries on the bodies of these objects in the view stand on none. It takes no memory.
pub fn detach_bodies<L: Ledger>(
    copies: &mut Incarnations,
    pids: &[Pid],
    view: View,
    steps: &mut Steps<L>,
)
    ensures lasts { copies.new.lasts ≡ copies.old.lasts }
    ensures left { Leaves (loosened (on_bodies view pids.now)) copies.old copies.new }
{
    copies.copies_hold();
    for pid in pids {
        copies.detach_body(*pid, view, steps);
    }
}
