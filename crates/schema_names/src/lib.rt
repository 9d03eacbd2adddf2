//! A schema with tables of its names: what the words of a command name in it is found by hash.
#![tactic(auto)]

mod members;
mod named;
mod provided;
mod roots;
mod table;

pub use named::NamedSchema;
