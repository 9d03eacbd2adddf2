//! Types, values, layouts and schemas, and what they mean: which values a type has, how a record is
//! spelled in CDR, and what a key's bytes are.
#![tactic(auto)]

mod defaults;
mod descent;
mod factories;
mod factory_graph;
mod factory_marks;
mod factory_names;
mod factory_search;
mod home;
mod home_factories;
mod key;
mod key_bytes;
mod laws;
mod member;
mod name_places;
mod numbers;
mod of_type;
mod placed_names;
mod provided;
mod schema;
mod scopes;
mod shape;
mod ty;
mod value;

pub use defaults::default_of;
pub use descent::descends;
pub use factories::{DeclaredFactories, DeclaredFactory};
pub use factory_graph::{FactoryGraph, HeldFactories};
pub use home::{HomeNo, HomeNos};
pub use home_factories::Factories;
pub use key::{Indexes, Key, KeyList, KeyNo, KeyNos};
pub use key_bytes::{key_of, key_of_values};
pub use laws::{key_values_tell, keys_tell, no_spelling_begins, one_spelling};
pub use member::{Layout, Member, Members};
pub use numbers::{home_at, key_at, keys_at, members_at};
pub use of_type::{is_of, is_record};
pub use placed_names::PlacedNames;
pub use provided::{ProvidedList, ProvidedParts, Provision};
pub use schema::{Factory, Home, HomeList, Schema};
pub use scopes::{Scope, ScopeNo, ScopeView, Scopes};
pub use shape::shape_of;
pub use ty::{Field, Fields, Names, Ty};
pub use value::{Record, Value, Values};
