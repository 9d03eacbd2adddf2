// A text that grows by tokens.
ghost use Rattle.std.specs.Prelude.{◌≡◌, ◌++◌, OnOk, IfOk, []};
ghost use Rattle.psdl_syntax.specs.Canonical.{indent, gap, clings, closing_gap, mark_gap, line_end, sign_edge, mark_edge, mark_depth};
ghost use Rattle.psdl_syntax.specs.Printing.{put, put_mark, put_text};
ghost use Rattle.psdl_syntax.specs.Seen.{Word, Named, Number, Quoted};
ghost use Rattle.psdl_tokens.specs.Spellings.{mark_spelling};

use super::literals::{extend_integer, extend_name, extend_string};
use psdl_tokens::{Keyword, Mark, keyword_spelling, mark_spelling};
use psdl_tree::{Identifier, IntegerLiteral, TextLiteral};
use pss_base::{Bytes, NoMemory};
use std::alloc::Global;

/// What a token leaves to the one behind it.
#[derive(Clone, Copy, Drop)]
pub(crate) enum Edge {
    /// A line begins.
    Line,
    /// Nothing stands between them.
    Tight,
    /// It was an identifier.
    Identifier,
    /// It was a literal or a `)`.
    Operand,
    /// It was a `>`.
    Greater,
    /// It was another token.
    Spaced,
}

/// The text so far, what its last token leaves to the next one, and how many braces are open.
#[derive(Drop)]
pub(crate) struct Printer {
    text: Bytes,
    edge: Edge,
    depth: usize,
}

fn clings(edge: Edge, mark: Mark) -> bool
    ensures { result ≡ clings edge mark }
{
    match mark {
        Mark::Semicolon => true,
        Mark::Comma => true,
        Mark::RightParen => true,
        Mark::RightBracket => true,
        Mark::LeftBracket => true,
        Mark::Less => true,
        Mark::Greater => !matches!(edge, Edge::Greater),
        Mark::LeftParen => matches!(edge, Edge::Identifier),
        Mark::Scope => matches!(edge, Edge::Identifier),
        _ => false,
    }
}

fn sign_edge(edge: Edge) -> Edge
    ensures { result ≡ sign_edge edge }
{
    match edge {
        Edge::Identifier => Edge::Spaced,
        Edge::Operand => Edge::Spaced,
        _ => Edge::Tight,
    }
}

fn mark_edge(edge: Edge, mark: Mark) -> Edge
    ensures { result ≡ mark_edge edge mark }
{
    match mark {
        Mark::LeftBrace => Edge::Line,
        Mark::Semicolon => Edge::Line,
        Mark::LeftParen => Edge::Tight,
        Mark::LeftBracket => Edge::Tight,
        Mark::Less => Edge::Tight,
        Mark::Scope => Edge::Tight,
        Mark::Greater => Edge::Greater,
        Mark::RightParen => Edge::Operand,
        Mark::Minus => sign_edge(edge),
        Mark::Plus => sign_edge(edge),
        Mark::Not => sign_edge(edge),
        _ => Edge::Spaced,
    }
}

// How many braces are open behind a mark. More than can be counted take more memory than there is.
fn mark_depth(depth: usize, mark: Mark) -> Result<usize, NoMemory>
    ensures { IfOk result (λ n. n ≡ mark_depth depth mark) }
{
    match mark {
        Mark::LeftBrace => depth.checked_add(1).ok_or(NoMemory),
        Mark::RightBrace => Ok(depth.saturating_sub(1)),
        _ => Ok(depth),
    }
}

fn extend_indent(text: &mut Bytes, depth: usize) -> Result<(), NoMemory>
    ensures { OnOk result (text.new ≡ text.old ++ indent depth) }
{
    for _ in 0..depth {
        text.extend(b"  ")?;
    }
    Ok(())
}

fn extend_gap(text: &mut Bytes, edge: Edge, depth: usize) -> Result<(), NoMemory>
    ensures { OnOk result (text.new ≡ text.old ++ gap edge depth) }
{
    match edge {
        Edge::Line => extend_indent(text, depth),
        Edge::Tight => Ok(()),
        _ => text.push(b' '),
    }
}

fn extend_closing_gap(text: &mut Bytes, edge: Edge, depth: usize) -> Result<(), NoMemory>
    ensures { OnOk result (text.new ≡ text.old ++ closing_gap edge depth) }
{
    match edge {
        Edge::Line => {}
        _ => text.push(b'\n')?,
    }
    extend_indent(text, depth.saturating_sub(1))
}

fn extend_mark_gap(text: &mut Bytes, edge: Edge, depth: usize, mark: Mark) -> Result<(), NoMemory>
    ensures { OnOk result (text.new ≡ text.old ++ mark_gap edge depth mark) }
{
    match mark {
        Mark::RightBrace => extend_closing_gap(text, edge, depth),
        _ => {
            if clings(edge, mark) {
                return Ok(());
            }
            extend_gap(text, edge, depth)
        }
    }
}

fn extend_mark(text: &mut Bytes, mark: Mark) -> Result<(), NoMemory>
    ensures { OnOk result (text.new ≡ text.old ++ (mark_spelling mark ++ line_end mark)) }
{
    text.extend(mark_spelling(mark).as_bytes())?;
    match mark {
        Mark::LeftBrace => text.push(b'\n'),
        Mark::Semicolon => text.push(b'\n'),
        _ => Ok(()),
    }
}

impl Printer {
    /// A printer in front of all tokens.
    pub(super) fn new(alloc: Global) -> Printer
        ensures { result ≡ record { text = []; edge = Edge.Line; depth = 0 } }
    {
        Printer {
            text: Bytes::new(alloc),
            edge: Edge::Line,
            depth: 0,
        }
    }

    /// The text of all tokens.
    pub(super) fn into_text(self) -> Bytes
        ensures { result ≡ self.text }
    {
        self.text
    }

    /// Adds a sign.
    #[tactic(auto, unfolding(crate::specs::Printing::put_mark))]
    pub(super) fn mark(&mut self, mark: Mark) -> Result<(), NoMemory>
        ensures { OnOk result (self.new ≡ put_mark self.old mark) }
    {
        extend_mark_gap(&mut self.text, self.edge, self.depth, mark)?;
        extend_mark(&mut self.text, mark)?;
        self.edge = mark_edge(self.edge, mark);
        self.depth = mark_depth(self.depth, mark)?;
        Ok(())
    }

    /// Adds a keyword.
    #[tactic(auto, unfolding(crate::specs::Printing::put_text))]
    pub(super) fn word(&mut self, keyword: Keyword) -> Result<(), NoMemory>
        ensures { OnOk result (self.new ≡ put self.old (Word keyword)) }
    {
        extend_gap(&mut self.text, self.edge, self.depth)?;
        self.text.extend(keyword_spelling(keyword).as_bytes())?;
        self.edge = Edge::Spaced;
        Ok(())
    }

    /// Adds an identifier.
    #[tactic(auto, unfolding(crate::specs::Printing::put_text))]
    pub(super) fn identifier(&mut self, identifier: &Identifier) -> Result<(), NoMemory>
        ensures { OnOk result (self.new ≡ put self.old (Named identifier.now)) }
    {
        extend_gap(&mut self.text, self.edge, self.depth)?;
        extend_name(&mut self.text, identifier.name.as_slice())?;
        self.edge = Edge::Identifier;
        Ok(())
    }

    /// Adds an integer.
    #[tactic(auto, unfolding(crate::specs::Printing::put_text))]
    pub(super) fn integer(&mut self, literal: &IntegerLiteral) -> Result<(), NoMemory>
        ensures { OnOk result (self.new ≡ put self.old (Number literal.now)) }
    {
        extend_gap(&mut self.text, self.edge, self.depth)?;
        extend_integer(&mut self.text, literal.value)?;
        self.edge = Edge::Operand;
        Ok(())
    }

    /// Adds a string.
    #[tactic(auto, unfolding(crate::specs::Printing::put_text))]
    pub(super) fn string(&mut self, literal: &TextLiteral) -> Result<(), NoMemory>
        ensures { OnOk result (self.new ≡ put self.old (Quoted literal.now)) }
    {
        extend_gap(&mut self.text, self.edge, self.depth)?;
        extend_string(&mut self.text, literal.bytes.as_slice())?;
        self.edge = Edge::Operand;
        Ok(())
    }
}
