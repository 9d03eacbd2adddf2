// Types and declarators.
use crate::{Expression, Identifier, Name};

/// `[ "unsigned" ] ( "short" | "long" [ "long" ] )`
#[derive(Clone, Copy, Debug, PartialEq, Eq, Drop)]
pub struct IntegerType {
    pub unsigned: bool,
    pub size: IntegerSize,
}

/// `"short" | "long" [ "long" ]`
#[derive(Clone, Copy, Debug, PartialEq, Eq, Drop)]
pub enum IntegerSize {
    Short,
    Long,
    LongLong,
}

/// `integer | "char" | "boolean" | "octet" | "string" [ "<" expr ">" ] | name`
#[derive(Drop)]
pub enum PlainType {
    Integer(IntegerType),
    Char,
    Boolean,
    Octet,
    String(Option<Expression>),
    Name(Name),
}

/// `plain_t | "sequence" "<" spec_t [ "," expr ] ">"`
#[derive(Drop)]
pub enum TypeSpec {
    Plain(PlainType),
    Sequence(Box<TypeSpec>, Option<Expression>),
}

/// `plain_t | "ref" "<" name ">"`
#[derive(Drop)]
pub enum StateType {
    Plain(PlainType),
    Reference(Name),
}

/// `id { "[" expr "]" }`
#[derive(Drop)]
pub struct Declarator {
    pub name: Identifier,
    pub dimensions: Vec<Expression>,
}

/// `declr { "," declr }`
#[derive(Drop)]
pub struct Declarators {
    pub first: Declarator,
    pub others: Vec<Declarator>,
}

/// `spec_t declr { "," declr } ";"`
#[derive(Drop)]
pub struct Field {
    pub spec: TypeSpec,
    pub declarators: Declarators,
}
