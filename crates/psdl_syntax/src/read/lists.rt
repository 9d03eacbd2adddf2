// Lists of parts.
ghost use Rattle.std.specs.Prelude.{◌≡◌, ◌-◌, ◌++◌, ◌∷◌, [], ℕ, map, OnOk};
ghost use Rattle.part_readers.specs.Reading.{Gives, starts, many};
ghost use Rattle.psdl_syntax.specs.Seen.{seen};
ghost use Rattle.psdl_syntax.specs.Lists.{begins};
ghost use Rattle.psdl_syntax.specs.Productions.{Reads, braces, up_to_brace};

use super::words::{Read, at_mark, before, before_brace, open_of};
use psdl_tokens::{Mark, Token};
use pss_base::NoMemory;
use std::alloc::Global;

/// Where one more part of a list begins.
#[derive(Clone, Copy, Drop)]
pub(crate) enum Start {
    /// At this mark.
    At(Mark),
    /// At any token but the brace that closes.
    Inside,
    /// At any token.
    Anywhere,
}

/// What stands in lists, each part with what is in front of it there.
pub(super) trait Part: Sized + Drop {
    ghost View: { Type 0 };

    ghost part_view: { Self → View };

    ghost part_at: { ℕ → Reads View };

    /// A part of a list, where so many brackets may open.
    fn part_of(alloc: Global, depth: u32, tokens: &[Token]) -> Read<'_, Self>
        ensures { Gives (λ x. (part_view x.0, map seen x.1.now)) result (part_at depth (map seen tokens.now)) };
}

fn is_part_here(start: Start, tokens: &[Token]) -> bool
    ensures { result ≡ starts (begins start) (map seen tokens.now) }
{
    match start {
        Start::At(mark) => at_mark(mark, tokens),
        Start::Inside => before_brace(tokens),
        Start::Anywhere => !tokens.is_empty(),
    }
}

/// Puts a part last. The room doubles from one part on, since most lists of operands are short.
pub(super) fn put_part<P: Drop>(parts: &mut Vec<P>, part: P) -> Result<(), NoMemory>
    ensures { OnOk result (parts.new.items ≡ parts.old.items ++ part ∷ []) }
{
    if parts.len() == parts.capacity() {
        parts.reserve_exact(parts.len().max(1))?;
    }
    parts.push(part)?;
    Ok(())
}

/// All parts that stand here one behind the other.
pub(super) fn parts_of<P: Part>(
    alloc: Global,
    depth: u32,
    start: Start,
    tokens: &[Token],
) -> Read<'_, Vec<P>>
    ensures { Gives (λ x. (map P.part_view x.0.items, map seen x.1.now)) result (many (begins start) (P.part_at depth) (map seen tokens.now)) }
{
    let mut parts = Vec::new(alloc);
    let mut rest = tokens;
    for _ in 0..tokens.len() {
        if !is_part_here(start, rest) {
            return Ok((parts, rest));
        }
        let (part, after) = P::part_of(alloc, depth, rest)?;
        parts.push(part)?;
        rest = after;
    }
    Ok((parts, rest))
}

/// All parts between braces.
pub(super) fn braced_of<P: Part>(alloc: Global, depth: u32, tokens: &[Token]) -> Read<'_, Vec<P>>
    ensures { Gives (λ x. (map P.part_view x.0.items, map seen x.1.now)) result (braces (up_to_brace (P.part_at (depth - 1))) depth (map seen tokens.now)) }
{
    let rest = open_of(Mark::LeftBrace, depth, tokens)?;
    let (parts, rest) = parts_of(alloc, depth - 1, Start::Inside, rest)?;
    let (parts, rest) = before(Mark::RightBrace, parts, rest)?;
    Ok((parts, rest))
}
