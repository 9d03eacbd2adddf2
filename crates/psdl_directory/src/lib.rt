//! The directory of a PSDL text: its declarations in order, and what the names in it mean, each looked up once.
#![tactic(auto)]

mod declaration;
mod directory;
mod fault;
mod flat;
mod headers;
mod keys;
mod kind;
mod least;
mod number;
mod scoped;
mod scopes;
mod spelling;
mod spellings;
mod table;
mod tables;
mod uses;

pub use declaration::{Declaration, What};
pub use directory::{Directory, Module};
pub use fault::{CheckFault, CheckKind};
pub use headers::{Header, headers_of};
pub use kind::same_kind;
pub use least::{Least, late_fault_changes_nothing, noting_goes_by_parts, noting_leaves_least};
pub use number::{DeclarationNo, ModuleNo, SpellingNo};
pub use spelling::{Spelling, in_small_letters};
pub use spellings::Spellings;
pub use uses::{Use, name_place, resolve};
