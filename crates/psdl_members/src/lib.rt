//! The members of the storage types of a PSDL text, and the keys and factories of its storage homes: those in bodies, and
//! those by descent.
#![tactic(auto)]

mod claims;
mod clashes;
mod columns;
mod contested;
mod entries;
mod entry;
mod firsts;
mod group;
mod heirs;
mod in_order;
mod inherited;
mod list_clash;
mod list_kind;
mod list_numbers;
mod listed;
mod masks;
mod member;
mod numbers;
mod own;
mod own_lists;
mod own_members;
mod owners;
mod pieces;
mod rows;
mod seen;
mod showing;
mod spelled;
mod type_clash;
mod written;

pub use inherited::Inherited;
pub use list_kind::ListKind;
pub use list_numbers::ListNumbers;
pub use listed::Listed;
pub use masks::mask_at;
pub use member::Member;
pub use own_lists::add_lists;
pub use owners::members_of;
pub use spelled::{add_number, add_numbers};
