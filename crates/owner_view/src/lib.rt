//! One owner over what was committed: what it changed, what it sees, and what operations come to on that.
//!
//! An owner's view is never built. Its changes lie in an overlay by serial, with an index for each key that was reserved for them;
//! a look-up asks the overlay first and then the committed objects.
#![tactic(auto)]

mod ask;
mod below;
mod committed;
mod committed_homes;
mod create;
mod destroy;
mod draft;
mod extent;
mod first;
mod follow;
mod gone;
mod keyed;
mod needs;
mod net;
mod number;
mod object;
mod operation;
mod overlay;
mod owned;
mod references;
mod refusal;
mod seen;
mod set;
mod sized;
mod state;
mod states;
mod step;
mod view;
mod weight;

pub use owned::Owned;
pub use step::{NewState, Step};
