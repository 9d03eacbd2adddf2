//! Values as texts: what a script writes for a value of a type, and what is printed for one.
#![tactic(auto)]

mod digits;
mod fault;
mod laws;
mod line;
mod print;
mod quoted;
mod read;
mod several;
mod words;

pub use fault::ValueFault;
pub use laws::{one_value, spelling_stands, what_stands_is_read};
pub use line::{LineFault, read_chosen, read_members, read_one_value};
pub use print::{append_number, append_value, print_value};
pub use read::read_value;
