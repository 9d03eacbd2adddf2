//! Records as octets: CDR of CORBA 3, one encapsulation a record, big-endian. The order of the members
//! and that padding is zero are this project's own.
#![tactic(auto)]

mod decoding;
mod encode;
mod fault;
mod key;
mod laws;
mod length;
mod member;
mod member_places;
mod numbers;
mod places;
mod several;
mod single;
mod width;

pub use decoding::{decode, decode_record};
pub use encode::encode_record;
pub use fault::RecordFault;
pub use laws::{bad_nul_has_the_first_wrong_octet, octets_are_a_record_or_refused};
pub use length::record_len;
pub use member::read_member;
pub use member_places::MemberPlaces;
