// Objects by their serials.
use pss_base::Bytes;

/// What is stored of an object under its serial: the number of its home, and the octets of its record.
#[derive(Drop)]
pub struct Stored {
    pub home: u32,
    pub octets: Bytes,
}
