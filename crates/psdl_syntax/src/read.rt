// The tree of a list of tokens, by recursive descent.
ghost use Rattle.std.specs.Prelude.{◌≡◌, map, IfOk, OnOk, Some};
ghost use Rattle.part_readers.specs.Reading.{Gives, starts, whole};
ghost use Rattle.part_readers.specs.Sentences.{IsFirstFault};
ghost use Rattle.psdl_syntax.specs.Seen.{seen};
ghost use Rattle.psdl_tree.specs.Trees.{Definitions};
ghost use Rattle.psdl_syntax.specs.Grammar.{definitions};
ghost use Rattle.psdl_tree.specs.Views.{definition_view, tree_view};
ghost use Rattle.psdl_syntax.specs.Depth.{room, FitsBefore, IsFirstDeep};
ghost use Rattle.psdl_syntax.specs.Productions.{is_any, text_at};
ghost use Rattle.psdl_syntax.specs.Answers.{IsGiven, IfUnexpected, IfTooDeep};

mod definitions;
mod expressions;
mod lists;
mod members;
mod names;
mod operators;
mod stores;
mod types;
mod words;

use crate::Fault;
use crate::read::lists::{Start, parts_of};
use crate::read::words::{Read, unexpected};
use part_readers::Refusal;
use psdl_tokens::Token;
use psdl_tree::Tree;
use std::alloc::Global;

/// So many brackets may be open at once.
const MOST_OPEN: u32 = 32;

/// The tree that the tokens of a whole text spell.
///
/// `Fault(Unexpected(left))`: at this many tokens from the end stands the first token that makes the tokens before it
/// and with it no beginning of a text. At 0 all tokens are such a beginning, and no text.
///
/// `Fault(TooDeep(left))`: at this many tokens from the end stands the first bracket that makes 33 unclosed, of braces,
/// parentheses, brackets and angles together. The tokens before it and with it are the beginning of a text.
pub(crate) fn read(alloc: Global, tokens: &[Token]) -> Result<Tree, Refusal<Fault>>
    // A tree that is given is spelled by the tokens.
    ensures found { IfOk result (λ tree. map seen tokens.now ≡ definitions (tree_view tree)) }
    // What spells a tree gives it, unless a bracket opens too deep.
    ensures only { (tree : Definitions) → map seen tokens.now ≡ definitions tree → IsGiven tree_view result tree }
    ensures unexpected { IfUnexpected result (λ left. IsFirstFault definitions (map seen tokens.now) left) }
    // No bracket in front of that token opens too deep.
    ensures level { IfUnexpected result (λ left. FitsBefore 32 (map seen tokens.now) left) }
    ensures deep { IfTooDeep result (λ left. IsFirstDeep 32 definitions (map seen tokens.now) left) }
    ensures room { OnOk result (room 32 (map seen tokens.now) ≡ Some 32) }
{
    all_of(alloc, MOST_OPEN, tokens)
}

fn is_there(tokens: &[Token]) -> bool
    ensures { result ≡ starts is_any (map seen tokens.now) }
{
    !tokens.is_empty()
}

// All of the tokens.
#[tactic(auto, unfolding(crate::specs::Productions::text_at))]
fn all_of(alloc: Global, depth: u32, tokens: &[Token]) -> Result<Tree, Refusal<Fault>>
    ensures { Gives (λ tree. map definition_view tree.definitions.items) result (whole Fault.Unexpected (text_at depth) (map seen tokens.now)) }
{
    let (definitions, rest) = parts_of(alloc, depth, Start::Anywhere, tokens)?;
    if is_there(rest) {
        return unexpected(rest);
    }
    Ok(Tree { definitions })
}
