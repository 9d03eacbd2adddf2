//! What the types and homes of a PSDL text descend from, over the numbers of declarations.
#![tactic(auto)]

mod ancestry;
mod conformity;
mod descendants;
mod families;
mod graph;
mod homes;
mod joined;
mod laws;
mod lineage;
mod lines;
mod marks;
mod parents;
mod providers;
mod source_lists;
mod sources;
mod walk;

pub use conformity::Conformity;
pub use graph::Graph;
pub use laws::conforming_is_descent;
pub use lineage::Lineage;
pub use marks::Marks;
pub use sources::Sources;
