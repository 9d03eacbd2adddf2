// The schema's text is read and checked.
ghost use Rattle.std.specs.Prelude.{ℕ, ◌≡◌, List, false, Some};
ghost use Rattle.pss_base.specs.Causes.{HasCauseIf};
ghost use Rattle.psdl_tree.specs.Views.{tree_view};
ghost use Rattle.psdl_syntax.specs.Syntax.{IsTextOf};
ghost use Rattle.pss_serving.specs.Found.{IsFound, IsOne, has_failed};

use crate::schema_fault::SchemaFault;
use psdl_check::{CheckKind, check};
use psdl_syntax::{MOST_BYTES, SyntaxKind, Tree, a_text_has_one_fault, parse};
use pss_base::{Bytes, ReadAll, Source, read_all};
use std::alloc::Global;
use type_layout::Schema;

/// One byte past the limit is read, so that a longer text is noticed.
const MOST_READ: u32 = MOST_BYTES as u32 + 1;

/// What is kept of a text in which nothing is wrong: its tree and its schema.
#[derive(Drop)]
pub struct SoundText {
    pub tree: Tree,
    pub schema: Schema,
}

/// Why the schema's source gave no sound text.
#[derive(Clone, Copy, Drop)]
pub enum Unread {
    /// The text has a fault.
    Refused(SchemaFault),
    /// The source failed.
    ReadFault,
    /// There was no memory.
    NoMemory,
}

// What each text with that tree is.
fn check_tree(alloc: Global, tree: Tree) -> Result<SoundText, Unread>
    ensures found { (text : List ℕ) → IsTextOf (tree_view tree) text → IsFound result (Some text) }
    ensures fault { has_failed result ≡ false }
{
    match check(alloc, &tree) {
        Ok(schema) => Ok(SoundText { tree, schema }),
        Err(fault) => match fault.kind {
            CheckKind::NoMemory => Err(Unread::NoMemory),
            _ => Err(Unread::Refused(SchemaFault::Check(fault))),
        },
    }
}

// What a text is. It is let go before its tree is checked.
fn check_text(alloc: Global, text: Bytes) -> Result<SoundText, Unread>
    ensures found { IsFound result (Some text) }
    ensures one { IsOne result (Some text) }
    ensures fault { has_failed result ≡ false }
{
    a_text_has_one_fault();
    let parsed = parse(alloc, text.as_slice());
    drop(text);
    match parsed {
        Ok(tree) => check_tree(alloc, tree),
        Err(fault) => match fault.kind {
            SyntaxKind::NoMemory => Err(Unread::NoMemory),
            _ => Err(Unread::Refused(SchemaFault::Syntax(fault))),
        },
    }
}

/// Reads a text and checks it.
pub fn read_checked<P: Source>(alloc: Global, schema: &mut P) -> Result<SoundText, Unread>
    ensures found { IsFound result (P.left schema.old) }
    ensures one { IsOne result (P.left schema.old) }
    ensures cause { HasCauseIf (P.faults schema.old) (P.faults schema.new) (has_failed result) }
{
    match read_all(alloc, schema, MOST_READ) {
        Ok(text) => check_text(alloc, text),
        Err(ReadAll::OverLimit(text)) => check_text(alloc, text),
        Err(ReadAll::ReadFault) => Err(Unread::ReadFault),
        Err(ReadAll::NoMemory) => Err(Unread::NoMemory),
    }
}
