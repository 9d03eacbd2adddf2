// Texts and their definitions.
use crate::{
    AbstractHome, AbstractType, Catalog, Declarators, Expression, Field, Identifier, Identifiers,
    IntegerType, Name, StorageHome, StorageType, TypeSpec,
};

/// The tree of a text: `{ def }`
#[derive(Drop)]
pub struct Tree {
    pub definitions: Vec<Definition>,
}

/// `( module | const | typedef | struct | enum | abstype | type | abshome | home | catalog ) ";"`
#[cycle(definition)]
#[derive(Drop)]
pub enum Definition {
    Module(Module),
    Constant(Constant),
    TypeDefinition(TypeDefinition),
    Struct(Struct),
    Enumeration(Enumeration),
    AbstractType(AbstractType),
    StorageType(StorageType),
    AbstractHome(AbstractHome),
    StorageHome(StorageHome),
    Catalog(Catalog),
}

/// `"module" id "{" { def } "}"`
#[cycle(definition)]
#[derive(Drop)]
pub struct Module {
    pub name: Identifier,
    pub definitions: Vec<Definition>,
}

/// `"const" ( integer | "octet" | "string" | name ) id "=" expr`
#[derive(Drop)]
pub struct Constant {
    pub constant_type: ConstantType,
    pub name: Identifier,
    pub value: Expression,
}

/// `integer | "octet" | "string" | name`
#[derive(Drop)]
pub enum ConstantType {
    Integer(IntegerType),
    Octet,
    String,
    Name(Name),
}

/// `"typedef" spec_t declr { "," declr }`
#[derive(Drop)]
pub struct TypeDefinition {
    pub spec: TypeSpec,
    pub declarators: Declarators,
}

/// `"struct" id "{" field { field } "}"`
#[derive(Drop)]
pub struct Struct {
    pub name: Identifier,
    pub first: Field,
    pub others: Vec<Field>,
}

/// `"enum" id "{" id { "," id } "}"`
#[derive(Drop)]
pub struct Enumeration {
    pub name: Identifier,
    pub enumerators: Identifiers,
}
