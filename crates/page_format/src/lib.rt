//! What the roots and pages of a store look like: which root is current and what is wrong with it, the entries of objects
//! in its pages and what is wrong with these, how entries are packed into pages, and how pages and roots are spelled.
#![tactic(auto)]

mod buffer;
mod current;
mod entries;
mod fault;
mod free;
mod gathered;
mod gathering;
mod head;
mod laws;
pub mod layout;
mod marks;
mod new_page;
mod objects;
mod packing;
mod page;
mod places;
mod reading;
mod root;
mod roots;
mod settling;
mod slot_list;
mod slots;
mod spelling;
mod stop;

pub use buffer::Buffer;
pub use entries::Entries;
pub use fault::{PageFault, RootFault};
pub use free::free_slots;
pub use gathered::Gathered;
pub use gathering::gather;
pub use laws::{a_store_stays, pages_are_one_thing, roots_are_one_thing};
pub use marks::{flags, mark};
pub use new_page::NewPage;
pub use objects::Stored;
pub use packing::{pack, record_of};
pub use places::Places;
pub use root::Root;
pub use roots::read_root;
pub use settling::{settle, stay_settled};
pub use slots::Slots;
pub use spelling::{put_pages, put_root, put_slots};
