//! The checks of a PSDL text, and the schema of a text that passes them: its homes one by one, each measured as it is made.
#![tactic(auto)]

mod checks;
mod heirs;
mod home_factories;
mod home_keys;
mod home_numbers;
mod homes;
mod key_lines;
mod key_records;
mod key_rows;
mod keys;
mod layout_members;
mod layouts;
mod line_lengths;
mod members;
mod modules;
mod numbering;
mod provided_homes;
mod referents;
mod schemas;
mod scoped_names;
mod text;

pub use checks::check;
pub use psdl_directory::{CheckFault, CheckKind};
