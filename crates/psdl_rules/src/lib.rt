//! The conditions that a PSDL text has to meet, a file each, and the table of their kinds.
#![tactic(auto)]

mod early_lists;
mod faults;
mod found_apart;
mod home_types;
mod listed_members;
mod long_type;
mod member_types;
mod operations;
mod redefined_inside;
mod scopes;
mod settled;
mod taken_names;
mod text;

pub use faults::{comes_before, fault_text, first_fault};
pub use text::Text;
