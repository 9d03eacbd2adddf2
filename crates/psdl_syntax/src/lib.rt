//! PSDL texts: their trees, their faults and their canonical text.
#![tactic(auto)]

mod fault;
mod laws;
mod parsing;
mod printing;
mod read;
mod syntax_fault;

pub use fault::Fault;
pub use laws::{a_printed_text_is_read_again, a_text_has_a_tree_or_a_fault, a_text_has_one_fault};
pub use parsing::parse;
pub use printing::print;
pub use psdl_tokens::MOST_BYTES;
pub use psdl_tree::Tree;
pub use syntax_fault::{SyntaxFault, SyntaxKind};
