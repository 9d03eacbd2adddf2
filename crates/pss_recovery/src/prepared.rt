// A body for which there is room.
use crate::body::Body;
use pss_base::Bytes;

/// A body for which there is room in the journal and in memory: committing it takes no memory.
#[derive(Drop)]
pub struct Prepared {
    pub body: Body,
    /// The octets of the body.
    pub octets: Bytes,
}
