// Why a store is refused.
ghost use Rattle.std.specs.Prelude.{◌≡◌, IfErr, IfOk};
ghost use Rattle.store_refusals.specs.Refusals.{fault_of, fault_of_stop};

use pss_base::{DamageKind, StoreStop};
use pss_recovery::MountFault;
use type_layout::HomeNo;

/// Why a store is refused. It is the store that is at fault, and neither the disk nor a want of memory.
#[derive(Clone, Copy, Debug, PartialEq, Eq, Drop)]
pub enum StoreRefusal {
    /// The file has fewer than 4,456,448 octets, or no root.
    NotAStore,
    /// The shape of the store is not that of the schema: this is the first home whose lines differ, or are in one alone.
    ShapeDiffers(HomeNo),
    /// The store is damaged at this place of the file, and this is what is wrong there.
    Damaged(u64, DamageKind),
}

/// What a store that is not mounted is refused for. `Err` where it is not the store that is at fault: the disk failed, or there was no memory.
pub fn refusal(fault: MountFault) -> Result<StoreRefusal, StoreStop>
    ensures refused { IfOk result (λ why. fault ≡ fault_of why) }
    ensures stopped { IfErr result (λ stop. fault ≡ fault_of_stop stop) }
{
    match fault {
        MountFault::NotAStore => Ok(StoreRefusal::NotAStore),
        MountFault::ShapeDiffers(home) => Ok(StoreRefusal::ShapeDiffers(home)),
        MountFault::Damaged(at, kind) => Ok(StoreRefusal::Damaged(at, kind)),
        MountFault::DiskFault => Err(StoreStop::DiskFault),
        MountFault::NoMemory => Err(StoreStop::NoMemory),
    }
}
