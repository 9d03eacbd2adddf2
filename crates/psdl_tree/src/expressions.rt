// Expressions, by the levels of their operators.
use crate::Name;
use pss_base::{Bytes, Place};

/// `xor { "|" xor }`
#[cycle(expression)]
#[derive(Drop)]
pub struct Expression {
    pub first: Xor,
    pub others: Vec<OrPart>,
}

/// `"|" xor`
#[cycle(expression)]
#[derive(Drop)]
pub struct OrPart {
    pub place: Place,
    pub operand: Xor,
}

/// `and { "^" and }`
#[cycle(expression)]
#[derive(Drop)]
pub struct Xor {
    pub first: And,
    pub others: Vec<XorPart>,
}

/// `"^" and`
#[cycle(expression)]
#[derive(Drop)]
pub struct XorPart {
    pub place: Place,
    pub operand: And,
}

/// `shift { "&" shift }`
#[cycle(expression)]
#[derive(Drop)]
pub struct And {
    pub first: Shift,
    pub others: Vec<AndPart>,
}

/// `"&" shift`
#[cycle(expression)]
#[derive(Drop)]
pub struct AndPart {
    pub place: Place,
    pub operand: Shift,
}

/// `add { ( "<<" | ">>" ) add }`
#[cycle(expression)]
#[derive(Drop)]
pub struct Shift {
    pub first: Sum,
    pub others: Vec<ShiftPart>,
}

/// `( "<<" | ">>" ) add`
#[cycle(expression)]
#[derive(Drop)]
pub struct ShiftPart {
    pub place: Place,
    pub operator: ShiftOperator,
    pub operand: Sum,
}

/// `"<<" | ">>"`
#[derive(Clone, Copy, Debug, PartialEq, Eq, Drop)]
pub enum ShiftOperator {
    Left,
    Right,
}

/// `mul { ( "+" | "-" ) mul }`
#[cycle(expression)]
#[derive(Drop)]
pub struct Sum {
    pub first: Product,
    pub others: Vec<SumPart>,
}

/// `( "+" | "-" ) mul`
#[cycle(expression)]
#[derive(Drop)]
pub struct SumPart {
    pub place: Place,
    pub operator: SumOperator,
    pub operand: Product,
}

/// `"+" | "-"`
#[derive(Clone, Copy, Debug, PartialEq, Eq, Drop)]
pub enum SumOperator {
    Plus,
    Minus,
}

/// `unary { ( "*" | "/" | "%" ) unary }`
#[cycle(expression)]
#[derive(Drop)]
pub struct Product {
    pub first: Unary,
    pub others: Vec<ProductPart>,
}

/// `( "*" | "/" | "%" ) unary`
#[cycle(expression)]
#[derive(Drop)]
pub struct ProductPart {
    pub place: Place,
    pub operator: ProductOperator,
    pub operand: Unary,
}

/// `"*" | "/" | "%"`
#[derive(Clone, Copy, Debug, PartialEq, Eq, Drop)]
pub enum ProductOperator {
    Times,
    Divide,
    Remainder,
}

/// `[ "-" | "+" | "~" ] primary`
#[cycle(expression)]
#[derive(Drop)]
pub struct Unary {
    pub sign: Option<UnarySign>,
    pub operand: Primary,
}

/// An operator in front of its operand.
#[derive(Clone, Copy, Debug, PartialEq, Eq, Drop)]
pub struct UnarySign {
    pub place: Place,
    pub operator: UnaryOperator,
}

/// `"-" | "+" | "~"`
#[derive(Clone, Copy, Debug, PartialEq, Eq, Drop)]
pub enum UnaryOperator {
    Minus,
    Plus,
    Not,
}

/// `name | integer literal | string literal | "(" expr ")"`
#[cycle(expression)]
#[derive(Drop)]
pub enum Primary {
    Name(Name),
    Integer(IntegerLiteral),
    Text(TextLiteral),
    Group(Group),
}

/// An integer, from 0 to 2^127 - 1.
#[derive(Clone, Copy, Debug, PartialEq, Eq, Drop)]
pub struct IntegerLiteral {
    pub place: Place,
    pub value: u128,
}

/// A string, by the bytes that it stands for.
#[derive(Drop)]
pub struct TextLiteral {
    pub place: Place,
    pub bytes: Bytes,
}

/// `"(" expr ")"`
#[cycle(expression)]
#[derive(Drop)]
pub struct Group {
    /// Where the `(` stands.
    pub place: Place,
    pub inner: Box<Expression>,
}
