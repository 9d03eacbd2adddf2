// Identifiers and names.
use pss_base::{Bytes, Place};

/// An identifier, by its name without the `_` that may stand in front of it.
#[derive(Drop)]
pub struct Identifier {
    pub place: Place,
    pub name: Bytes,
}

/// `[ "::" ] id { "::" id }`
#[derive(Drop)]
pub struct Name {
    /// Where the `::` in front of the name stands.
    pub leading: Option<Place>,
    pub first: Identifier,
    pub others: Vec<NamePart>,
}

/// `"::" id`
#[derive(Drop)]
pub struct NamePart {
    /// Where the `::` stands.
    pub scope: Place,
    pub name: Identifier,
}

/// `name { "," name }`
#[derive(Drop)]
pub struct Names {
    pub first: Name,
    pub others: Vec<Name>,
}

/// `id { "," id }`
#[derive(Drop)]
pub struct Identifiers {
    pub first: Identifier,
    pub others: Vec<Identifier>,
}
