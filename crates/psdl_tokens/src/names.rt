// The words of the grammar, and those that it leaves out.
ghost use Rattle.std.specs.Prelude.{◌↔◌, IsTrue, Any, Contains, map};
ghost use Rattle.psdl_tokens.specs.Names.{SameButForCase, keywords, left_out_words};
ghost use Rattle.psdl_tokens.specs.Spellings.{keyword_spelling};

use crate::spelling::{ALL_KEYWORDS, keyword_spelling};
use crate::token::Keyword;

// The words of PSS 2.0 that this language leaves out. No name is one of them exactly.
const LEFT_OUT_WORDS: [&str; 33] = [
    "any",
    "as",
    "attribute",
    "case",
    "context",
    "custom",
    "default",
    "double",
    "exception",
    "fixed",
    "float",
    "interface",
    "local",
    "native",
    "Object",
    "oneway",
    "private",
    "public",
    "raises",
    "scope",
    "store",
    "stores",
    "strong",
    "supports",
    "switch",
    "truncatable",
    "union",
    "valuetype",
    "ValueBase",
    "wchar",
    "wstring",
    "TRUE",
    "FALSE",
];

fn is_like_one_of(word: &[u8], table: &[Keyword]) -> bool
    ensures { IsTrue result ↔ Any (SameButForCase word.now) (map keyword_spelling table.now) }
{
    table.iter().any(|keyword| word.eq_ignore_ascii_case(keyword_spelling(*keyword).as_bytes()))
}

fn is_in(word: &[u8], table: &[&str]) -> bool
    ensures { IsTrue result ↔ Contains (map (λ entry. entry.now) table.now) word.now }
{
    table.iter().any(|entry| entry.as_bytes() == word)
}

/// Tells whether this is a keyword in any case.
pub fn is_keyword(word: &[u8]) -> bool
    ensures { IsTrue result ↔ Any (SameButForCase word.now) keywords }
{
    is_like_one_of(word, &ALL_KEYWORDS)
}

/// Tells whether this is a left-out word, in exact case.
pub fn is_left_out(word: &[u8]) -> bool
    ensures { IsTrue result ↔ Contains left_out_words word.now }
{
    is_in(word, &LEFT_OUT_WORDS)
}
