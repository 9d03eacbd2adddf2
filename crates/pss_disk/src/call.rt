// A call of a station in memory, by what it did.
use pss_base::Bytes;

/// What a call did, whether it failed or not.
#[derive(Drop)]
pub enum Call {
    /// Nothing, as a read, or a sync that failed.
    Quiet,
    /// These bytes were spoken: all that there were, or the first half of them where it failed.
    Spoke(Bytes),
    /// These bytes were written at this place.
    Wrote(u32, Bytes),
    /// These bytes were to be written at this place, and the first half of them came.
    Tore(u32, Bytes),
    /// What was written is kept from now on.
    Synced,
}
