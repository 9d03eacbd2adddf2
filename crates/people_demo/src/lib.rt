//! A demonstration over an empty store: people are made, round by round, each of whom gets an earlier one as boss. What is
//! done are lines of a script, whose replies are counted and not spoken.
#![tactic(auto)]

mod demo;
mod lines;
mod numbers;
mod schema;
mod showing;
mod tally;

pub use demo::{DemoStop, run_demo};
pub use schema::people;
