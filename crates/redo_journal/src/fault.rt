// Why a journal is not replayed.
ghost use Rattle.std.specs.Prelude.{◌≡◌};
ghost use Rattle.redo_journal.specs.declared.fault.ReplayFault.TheVariants.{NoMemory as OfMemory};
ghost use Rattle.pss_base.specs.declared.stop.StoreStop.TheVariants as stop;

use pss_base::{NoMemory, StoreStop};

/// Why a journal is not replayed. The content is as before.
#[derive(Clone, Copy, Debug, PartialEq, Eq, Drop)]
pub enum ReplayFault {
    /// The gate at this place of the file is open, and has a record that does not fit into the journal behind it, or,
    /// where it is not the first gate, another epoch.
    Damaged(u64),
    /// A call of the disk failed.
    DiskFault,
    /// There was no memory. It may come in place of any other answer.
    NoMemory,
}

impl From<NoMemory> for ReplayFault {
    ghost from_gives = { λ _ fault. fault ≡ OfMemory };

    fn from(_: NoMemory) -> ReplayFault {
        ReplayFault::NoMemory
    }
}
