// How keywords and marks are spelled.
ghost use Rattle.std.specs.Prelude.{◌≡◌, ◌≤◌, length, find, IfSome};
ghost use Rattle.std.specs.Str.{bytes_eq};
ghost use Rattle.psdl_tokens.specs.Spellings.{keyword_spelling, keyword_of, mark_spelling, mark_at};

use crate::alphabet::byte_at;
use crate::token::{Keyword, Mark};

// The words of the grammar. No name is one of them in any case.
pub(crate) const ALL_KEYWORDS: [Keyword; 30] = [
    Keyword::Abstract,
    Keyword::Boolean,
    Keyword::Catalog,
    Keyword::Char,
    Keyword::Const,
    Keyword::Enum,
    Keyword::Factory,
    Keyword::Implements,
    Keyword::In,
    Keyword::InOut,
    Keyword::Key,
    Keyword::Long,
    Keyword::Module,
    Keyword::Octet,
    Keyword::Of,
    Keyword::Out,
    Keyword::Primary,
    Keyword::Provides,
    Keyword::ReadOnly,
    Keyword::Ref,
    Keyword::Sequence,
    Keyword::Short,
    Keyword::State,
    Keyword::StorageHome,
    Keyword::StorageType,
    Keyword::String,
    Keyword::Struct,
    Keyword::Typedef,
    Keyword::Unsigned,
    Keyword::Void,
];

/// The word that a keyword is written as.
pub fn keyword_spelling(keyword: Keyword) -> &'static str
    ensures { result.now ≡ keyword_spelling keyword }
{
    match keyword {
        Keyword::Abstract => "abstract",
        Keyword::Boolean => "boolean",
        Keyword::Catalog => "catalog",
        Keyword::Char => "char",
        Keyword::Const => "const",
        Keyword::Enum => "enum",
        Keyword::Factory => "factory",
        Keyword::Implements => "implements",
        Keyword::In => "in",
        Keyword::InOut => "inout",
        Keyword::Key => "key",
        Keyword::Long => "long",
        Keyword::Module => "module",
        Keyword::Octet => "octet",
        Keyword::Of => "of",
        Keyword::Out => "out",
        Keyword::Primary => "primary",
        Keyword::Provides => "provides",
        Keyword::ReadOnly => "readonly",
        Keyword::Ref => "ref",
        Keyword::Sequence => "sequence",
        Keyword::Short => "short",
        Keyword::State => "state",
        Keyword::StorageHome => "storagehome",
        Keyword::StorageType => "storagetype",
        Keyword::String => "string",
        Keyword::Struct => "struct",
        Keyword::Typedef => "typedef",
        Keyword::Unsigned => "unsigned",
        Keyword::Void => "void",
    }
}

fn keyword_among(word: &[u8], table: &[Keyword]) -> Option<Keyword>
    ensures { result ≡ find (λ keyword. bytes_eq word.now (keyword_spelling keyword)) table.now }
{
    for keyword in table {
        if word == keyword_spelling(*keyword).as_bytes() {
            return Some(*keyword);
        }
    }
    None
}

/// The keyword that is written as this word.
#[tactic(auto, unfolding(crate::specs::Spellings::keyword_of))]
pub(crate) fn keyword_of(word: &[u8]) -> Option<Keyword>
    ensures { result ≡ keyword_of word.now }
{
    keyword_among(word, &ALL_KEYWORDS)
}

/// The bytes that a mark is written as.
pub fn mark_spelling(mark: Mark) -> &'static str
    ensures { result.now ≡ mark_spelling mark }
{
    match mark {
        Mark::ShiftLeft => "<<",
        Mark::ShiftRight => ">>",
        Mark::Scope => "::",
        Mark::LeftBrace => "{",
        Mark::RightBrace => "}",
        Mark::LeftParen => "(",
        Mark::RightParen => ")",
        Mark::LeftBracket => "[",
        Mark::RightBracket => "]",
        Mark::Less => "<",
        Mark::Greater => ">",
        Mark::Colon => ":",
        Mark::Semicolon => ";",
        Mark::Comma => ",",
        Mark::Equals => "=",
        Mark::Or => "|",
        Mark::Xor => "^",
        Mark::And => "&",
        Mark::Plus => "+",
        Mark::Minus => "-",
        Mark::Times => "*",
        Mark::Divide => "/",
        Mark::Remainder => "%",
        Mark::Not => "~",
    }
}

/// The longest mark that a text begins with.
pub(crate) fn mark_at(rest: &[u8]) -> Option<Mark>
    ensures mark { result ≡ mark_at rest.now }
    ensures within { IfSome result (λ mark. length (mark_spelling mark) ≤ length rest.now) }
{
    let first = byte_at(rest, 0);
    match first {
        b'{' => Some(Mark::LeftBrace),
        b'}' => Some(Mark::RightBrace),
        b'(' => Some(Mark::LeftParen),
        b')' => Some(Mark::RightParen),
        b'[' => Some(Mark::LeftBracket),
        b']' => Some(Mark::RightBracket),
        b'<' if byte_at(rest, 1) == b'<' => Some(Mark::ShiftLeft),
        b'<' => Some(Mark::Less),
        b'>' if byte_at(rest, 1) == b'>' => Some(Mark::ShiftRight),
        b'>' => Some(Mark::Greater),
        b':' if byte_at(rest, 1) == b':' => Some(Mark::Scope),
        b':' => Some(Mark::Colon),
        b';' => Some(Mark::Semicolon),
        b',' => Some(Mark::Comma),
        b'=' => Some(Mark::Equals),
        b'|' => Some(Mark::Or),
        b'^' => Some(Mark::Xor),
        b'&' => Some(Mark::And),
        b'+' => Some(Mark::Plus),
        b'-' => Some(Mark::Minus),
        b'*' => Some(Mark::Times),
        b'/' => Some(Mark::Divide),
        b'%' => Some(Mark::Remainder),
        b'~' => Some(Mark::Not),
        _ => None,
    }
}
