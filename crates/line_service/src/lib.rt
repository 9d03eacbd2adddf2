//! Serves the lines of a script, one after the other, by any machine that serves one: what is spoken, how it ends, and what
//! a crash may leave at each moment are told by the machine's turn from a state and a line to the next state and a text.
#![tactic(auto)]

mod machine;
mod serving;
mod speaking;

pub use machine::{LineMachine, Turn};
pub use serving::{Ending, serve};
pub use speaking::speak;
