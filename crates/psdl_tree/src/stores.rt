// Storage types, storage homes and catalogs.
use crate::{Identifier, Identifiers, Name, Names, StateType};
use pss_base::Place;

/// `[ "readonly" ] "state" state_t id { "," id } ";"`
#[derive(Drop)]
pub struct State {
    pub readonly: bool,
    pub state_type: StateType,
    pub names: Identifiers,
}

/// `"in" | "out" | "inout"`
#[derive(Clone, Copy, Debug, PartialEq, Eq, Drop)]
pub enum Direction {
    In,
    Out,
    InOut,
}

/// `( "in" | "out" | "inout" ) state_t id`
#[derive(Drop)]
pub struct Parameter {
    pub direction: Direction,
    pub parameter_type: StateType,
    pub name: Identifier,
}

/// `param { "," param }`
#[derive(Drop)]
pub struct Parameters {
    pub first: Parameter,
    pub others: Vec<Parameter>,
}

/// `"void" | state_t`
#[derive(Drop)]
pub enum OperationResult {
    Void,
    State(StateType),
}

/// `( "void" | state_t ) id "(" [ param { "," param } ] ")" ";"`
#[derive(Drop)]
pub struct Operation {
    pub returned: OperationResult,
    pub name: Identifier,
    /// Where the `(` stands.
    pub place: Place,
    pub parameters: Option<Parameters>,
}

/// `"key" id [ "(" id { "," id } ")" ] ";"`
#[derive(Drop)]
pub struct Key {
    pub name: Identifier,
    pub members: Option<KeyMembers>,
}

/// `"(" id { "," id } ")"`
#[derive(Drop)]
pub struct KeyMembers {
    /// Where the `(` stands.
    pub place: Place,
    pub names: Identifiers,
}

/// `"factory" id "(" [ id { "," id } ] ")" ";"`
#[derive(Drop)]
pub struct Factory {
    pub name: Identifier,
    /// Where the `(` stands.
    pub place: Place,
    pub members: Option<Identifiers>,
}

/// `"abstract" "storagetype" id [ [ ":" names ] "{" { state | op } "}" ]`
#[derive(Drop)]
pub struct AbstractType {
    pub name: Identifier,
    /// None: the definition is a forward declaration.
    pub body: Option<AbstractTypeBody>,
}

/// `[ ":" names ] "{" { state | op } "}"`
#[derive(Drop)]
pub struct AbstractTypeBody {
    pub bases: Option<Names>,
    pub members: Vec<AbstractTypeMember>,
}

/// `state | op`
#[derive(Drop)]
pub enum AbstractTypeMember {
    State(State),
    Operation(Operation),
}

/// `"storagetype" id [ [ ":" name ] [ "implements" names ] "{" { state } "}" ]`
#[derive(Drop)]
pub struct StorageType {
    pub name: Identifier,
    /// None: the definition is a forward declaration.
    pub body: Option<StorageTypeBody>,
}

/// `[ ":" name ] [ "implements" names ] "{" { state } "}"`
#[derive(Drop)]
pub struct StorageTypeBody {
    pub base: Option<Name>,
    pub implements: Option<Names>,
    pub states: Vec<State>,
}

/// `"abstract" "storagehome" id [ "of" name [ ":" names ] "{" { key | factory | op } "}" ]`
#[derive(Drop)]
pub struct AbstractHome {
    pub name: Identifier,
    /// None: the definition is a forward declaration.
    pub body: Option<AbstractHomeBody>,
}

/// `"of" name [ ":" names ] "{" { key | factory | op } "}"`
#[derive(Drop)]
pub struct AbstractHomeBody {
    pub managed: Name,
    pub bases: Option<Names>,
    pub members: Vec<AbstractHomeMember>,
}

/// `key | factory | op`
#[derive(Drop)]
pub enum AbstractHomeMember {
    Key(Key),
    Factory(Factory),
    Operation(Operation),
}

/// `"storagehome" id [ ":" name ] "of" name [ "implements" names ] "{" { key | "primary" key | factory } "}"`
#[derive(Drop)]
pub struct StorageHome {
    pub name: Identifier,
    pub base: Option<Name>,
    pub managed: Name,
    pub implements: Option<Names>,
    pub members: Vec<HomeMember>,
}

/// `key | "primary" key | factory`
#[derive(Drop)]
pub enum HomeMember {
    Key(Key),
    PrimaryKey(Key),
    Factory(Factory),
}

/// `"catalog" id "{" { "provides" name id ";" } "}"`
#[derive(Drop)]
pub struct Catalog {
    pub name: Identifier,
    pub provisions: Vec<Provision>,
}

/// `"provides" name id ";"`
#[derive(Drop)]
pub struct Provision {
    pub home: Name,
    pub name: Identifier,
}
