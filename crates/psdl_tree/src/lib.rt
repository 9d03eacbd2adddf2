//! The trees of PSDL texts: a type for each production of the grammar, with a field for each of its parts in order.
#![tactic(auto)]

mod definitions;
mod expressions;
mod names;
mod stores;
mod types;

pub use definitions::{
    Constant, ConstantType, Definition, Enumeration, Module, Struct, Tree, TypeDefinition,
};
pub use expressions::{
    And, AndPart, Expression, Group, IntegerLiteral, OrPart, Primary, Product, ProductOperator,
    ProductPart, Shift, ShiftOperator, ShiftPart, Sum, SumOperator, SumPart, TextLiteral, Unary,
    UnaryOperator, UnarySign, Xor, XorPart,
};
pub use names::{Identifier, Identifiers, Name, NamePart, Names};
pub use stores::{
    AbstractHome, AbstractHomeBody, AbstractHomeMember, AbstractType, AbstractTypeBody,
    AbstractTypeMember, Catalog, Direction, Factory, HomeMember, Key, KeyMembers, Operation,
    OperationResult, Parameter, Parameters, Provision, State, StorageHome, StorageType,
    StorageTypeBody,
};
pub use types::{
    Declarator, Declarators, Field, IntegerSize, IntegerType, PlainType, StateType, TypeSpec,
};
