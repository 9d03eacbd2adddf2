//! The commands that open, associate and close sessions, begin and roll back transactions, count entries, and tell of all
//! this, each as one call. A refusal leaves all as it was. After `NoMemory` nothing is said of the parts, which are not used
//! again.
#![tactic(auto)]

mod associating;
mod closing;
mod holding;
mod opening;
mod states;
mod telling;

pub use associating::{end, start, suspend};
pub use closing::{close, rollback};
pub use holding::{dup, free_all, refresh, release};
pub use opening::{begin, open};
pub use telling::{history, home, pid_of, stat, status};
