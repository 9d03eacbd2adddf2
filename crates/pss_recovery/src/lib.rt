//! A store as a whole: what its octets stand for, or why they are refused. A new one is made; one is mounted, and then gets
//! commits and checkpoints. Bodies of its journal as octets, and back.
#![tactic(auto)]

mod altering;
mod apart;
mod body;
mod changing;
mod checking;
mod claims;
mod clearing;
mod decoding;
mod encoding;
mod entry_places;
mod fault;
mod head;
mod keys;
mod laws;
mod layout;
mod loading;
mod mounting;
mod noting;
mod octets;
mod paging;
mod parts;
mod prepared;
mod references;
mod remaking;
mod replaying;
mod rising;
mod rooting;
mod shapes;
mod store;
mod summing;

pub use body::Body;
pub use decoding::decode_body;
pub use encoding::encode_body;
pub use fault::{InitFault, MountFault};
pub use laws::{
    a_body_is_one_thing, a_mounted_store_stands, a_store_is_good, an_image_is_one_thing,
};
pub use mounting::Mounted;
pub use noting::{copy_put, copy_puts};
pub use prepared::Prepared;
pub use store::Store;
