// A declaration of a text, as the tables keep it.
use psdl_tree::{
    AbstractHomeBody, AbstractTypeBody, Constant, Expression, Identifiers, Provision, StorageHome,
    StorageTypeBody, Struct, TypeSpec,
};
use pss_base::Place;

/// An identifier that is declared in the text or in a module, with its scope.
#[derive(Clone, Copy)]
pub struct Declaration<'a> {
    pub(crate) scope: usize,
    pub name: &'a [u8],
    pub place: Place,
    pub what: What<'a>,
}

/// What is declared.
#[derive(Clone, Copy)]
pub enum What<'a> {
    /// A module, with the scope inside it.
    Module(usize),
    Constant(&'a Constant),
    /// A declarator of a typedef: how many others of it stand in front, its type and its dimensions.
    Alias(usize, &'a TypeSpec, &'a [Expression]),
    Struct(&'a Struct),
    Enumeration(&'a Identifiers),
    Enumerator,
    AbstractType(&'a Option<AbstractTypeBody>),
    ConcreteType(&'a Option<StorageTypeBody>),
    AbstractHome(&'a Option<AbstractHomeBody>),
    ConcreteHome(&'a StorageHome),
    Catalog(&'a [Provision]),
}
