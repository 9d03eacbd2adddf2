// Why a store is not made or not mounted.
use pss_base::DamageKind;
use type_layout::HomeNo;

/// Why a store is not made.
#[derive(Clone, Copy, Debug, PartialEq, Eq, Drop)]
pub enum InitFault {
    /// The file has octets. Nothing was written.
    NotEmpty,
    /// A call of the disk failed. What the file holds is open.
    DiskFault,
    /// There was no memory. Nothing was written. It may come in place of any other answer.
    NoMemory,
}

/// Why a store is not mounted. The content is as before, but for the gate that ends its journal.
#[derive(Clone, Copy, Debug, PartialEq, Eq, Drop)]
pub enum MountFault {
    /// The file has fewer than 4,456,448 octets, or no root.
    NotAStore,
    /// The shape of the store is not that of the schema: this is the first home whose lines differ, or are in one alone.
    ShapeDiffers(HomeNo),
    /// The store is damaged at this place of the file, and this is what is wrong there.
    Damaged(u64, DamageKind),
    /// A call of the disk failed.
    DiskFault,
    /// There was no memory. It may come in place of any other answer.
    NoMemory,
}
