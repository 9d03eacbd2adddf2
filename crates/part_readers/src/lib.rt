//! Readers put together from readers of parts: what they give, and what they owe to a grammar.
//!
//! The definitions and their laws are generic in what is read, element by element, and in its
//! faults. A crate states its functions as `Gives view result (reader elements)`, and shows of
//! the reader that it keeps to its grammar.
#![tactic(auto)]

mod refusal;

pub use refusal::Refusal;
