// Why a call on the store came to no answer.
ghost use Rattle.std.specs.Prelude.{◌≡◌};
ghost use Rattle.pss_base.specs.declared.stop.StoreStop.TheVariants.{DiskFault as OfDisk, NoMemory as OfMemory};

use crate::NoMemory;

/// A call of the disk failed.
#[derive(Clone, Copy, Debug, PartialEq, Eq, Drop)]
pub struct DiskFault;

/// Why a call on the store came to no answer.
#[derive(Clone, Copy, Debug, PartialEq, Eq, Drop)]
pub enum StoreStop {
    /// A call of the disk failed.
    DiskFault,
    /// There was no memory. It may come in place of any other answer.
    NoMemory,
}

impl From<DiskFault> for StoreStop {
    ghost from_gives = { λ _ stop. stop ≡ OfDisk };

    fn from(_: DiskFault) -> StoreStop {
        StoreStop::DiskFault
    }
}

impl From<NoMemory> for StoreStop {
    ghost from_gives = { λ _ stop. stop ≡ OfMemory };

    fn from(_: NoMemory) -> StoreStop {
        StoreStop::NoMemory
    }
}
