//! Lines of a script and commands, replies and their texts.
//!
//! A line is taken apart word by word, its first word tells which command it may be, and the words behind it are
//! read as the parts of that command. A reply becomes one text.
#![tactic(auto)]

mod command;
mod fault;
mod laws;
mod parts;
mod reply;
mod tail;
mod verb;
mod words;

pub use command::{GetWords, read_command, read_get};
pub use fault::CommandFault;
pub use laws::lines_say_one_thing;
pub use reply::{append_reply, print_reply};
