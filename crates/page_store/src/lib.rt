//! The pages of a store: the current root with the pages that it names, read and tested, and checkpoints, which let the
//! next root follow it, with the changes that were noted.
#![tactic(auto)]

mod gates;
mod laying;
mod pages;
mod parting;
mod placing;
mod repacking;
mod rereading;
mod slot_table;
mod small;
mod stop;
mod switch;

pub use gates::close_gate;
pub use page_format::{
    PageFault, Root, RootFault, Slots, a_store_stays, pages_are_one_thing, read_root,
    roots_are_one_thing,
};
pub use pages::{Fetched, Pages};
