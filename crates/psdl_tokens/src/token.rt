// The tokens of a PSDL text.
use pss_base::{Bytes, Place};

/// The words that the grammar is written in.
#[derive(Clone, Copy, Drop)]
pub enum Keyword {
    Abstract,
    Boolean,
    Catalog,
    Char,
    Const,
    Enum,
    Factory,
    Implements,
    In,
    InOut,
    Key,
    Long,
    Module,
    Octet,
    Of,
    Out,
    Primary,
    Provides,
    ReadOnly,
    Ref,
    Sequence,
    Short,
    State,
    StorageHome,
    StorageType,
    String,
    Struct,
    Typedef,
    Unsigned,
    Void,
}

/// The signs that the grammar is written in.
#[derive(Clone, Copy, Drop)]
pub enum Mark {
    LeftBrace,
    RightBrace,
    LeftParen,
    RightParen,
    LeftBracket,
    RightBracket,
    Less,
    Greater,
    ShiftLeft,
    ShiftRight,
    Colon,
    Scope,
    Semicolon,
    Comma,
    Equals,
    Or,
    Xor,
    And,
    Plus,
    Minus,
    Times,
    Divide,
    Remainder,
    Not,
}

/// What a token is.
#[derive(Drop)]
pub enum TokenKind {
    /// A keyword, spelled exactly.
    Keyword(Keyword),
    /// A sign.
    Mark(Mark),
    /// An identifier, by its name without the `_` that may stand in front of it.
    Identifier(Bytes),
    /// A word that is a keyword but for case, which stands nowhere in the grammar.
    Miscased,
    /// An integer from 0 to 2^127 - 1, however it was written.
    Integer(u128),
    /// A string, by the bytes that it stands for.
    Text(Bytes),
}

/// A token with the place of its first byte.
#[derive(Drop)]
pub struct Token {
    pub place: Place,
    pub kind: TokenKind,
}
