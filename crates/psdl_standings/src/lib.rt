//! What the declarations of a PSDL text stand for: types, by number, and values of constants.
#![tactic(auto)]

mod alone;
mod assess;
mod assessment;
mod bodies;
mod body_faults;
mod bound;
mod const_range;
mod const_zero;
mod constants;
mod enumeration_length;
mod extent;
mod levels;
mod need;
mod nesting;
mod new_types;
mod numbered_standing;
mod operator;
mod places;
mod range;
mod sight;
mod spot;
mod standings;
mod state_entry;
mod structs;
mod telling;
mod text_length;
mod type_extents;
mod types;
mod unknown;
mod walk;
mod wrong_case;
mod wrong_kind;

pub use extent::Extent;
pub use standings::Standings;
pub use state_entry::StateEntry;
pub use text_length::TextLength;
pub use types::Types;
