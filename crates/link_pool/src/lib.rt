//! Nodes that stand in two rings each, one of a row and one of a column, in one slab.
#![tactic(auto)]

mod cells;
mod counted;
mod names;
mod pool;

pub use names::{Col, Node, Row};
pub use pool::Pool;
