//! The service: a text in PSDL and a script come in, one reply for each command goes out. Here the words are read that
//! say what is asked for, and it is done. What lines of a script say, the texts of replies, and what serves one line after
//! another are handed on for those that speak with the service.
#![tactic(auto)]

mod forms;
mod planning;
mod service;

pub use forms::{Plan, Usage};
pub use line_service::Turn;
pub use planning::plan;
pub use pss_serving::Status;
pub use script_service::Daemon;
pub use script_text::{CommandFault, print_reply, read_command};
pub use service::pssd;

#[cfg(test)]
mod tests;
