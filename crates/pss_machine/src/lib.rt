//! The catalog machine: what a command of a script does to objects, owners, locks, sessions and their entries, and
//! what it is replied.
//!
//! Here stand the plain types of commands, operations, locks and replies, the definitions over them, and their laws.
//! There is no code of the service. What serves scripts is proved against these definitions.
#![tactic(auto)]

mod answer;
mod command;
mod laws;
mod level;
mod limits;
mod lock;
mod operation;
mod reply;
mod session;
mod text;

pub use answer::Answer;
pub use command::{Command, Rest};
pub use laws::{
    bodies_are_right, effects_are_allowed, entries_are_attached, entries_are_orderly,
    limits_are_exact, numbers_come_once, owners_are_told, refusals_change_nothing, runs_go_on,
};
pub use level::Level;
pub use limits::Limits;
pub use lock::{Mode, Need, Needs, Resource};
pub use operation::Op;
pub use reply::Reply;
pub use session::{Access, Association, Kind, StateName, View};
pub use text::Text;
