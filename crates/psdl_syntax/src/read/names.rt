// Names.
ghost use Rattle.std.specs.Prelude.{map};
ghost use Rattle.part_readers.specs.Reading.{Gives, optional};
ghost use Rattle.psdl_syntax.specs.Seen.{seen};
ghost use Rattle.psdl_tree.specs.Views.{name_view, names_view, identifiers_view};
ghost use Rattle.psdl_syntax.specs.Productions.{is_mark, place_at, name_part_at, name_at, names_at, identifiers_at, identifier_at, behind_sign};
ghost use Rattle.psdl_tree.specs.Trees as trees;
ghost use Rattle.psdl_tree.specs.declared.names.Identifier.{Identifier};
ghost use Rattle.psdl_tree.specs.declared.names.NamePart.{NamePart};
ghost use Rattle.psdl_tokens.specs.declared.token.Mark.TheVariants as marks;

use super::lists::{Part, Start, parts_of};
use super::words::{Read, at_mark, identifier_of, mark_of, place_of};
use psdl_tokens::{Mark, Token};
use psdl_tree::{Identifier, Identifiers, Name, NamePart, Names};
use pss_base::Place;
use std::alloc::Global;

fn leading_scope_of(tokens: &[Token]) -> Read<'_, Option<Place>>
    ensures { Gives (λ x. (x.0, map seen x.1.now)) result (optional (is_mark marks.Scope) (place_at marks.Scope) (map seen tokens.now)) }
{
    if at_mark(Mark::Scope, tokens) {
        let (place, rest) = place_of(Mark::Scope, tokens)?;
        return Ok((Some(place), rest));
    }
    Ok((None, tokens))
}

impl Part for NamePart {
    ghost View = { NamePart };

    ghost part_view = { λ part. part };

    ghost part_at = { λ depth. name_part_at };

    #[tactic(auto, unfolding(crate::specs::Productions::name_part_at))]
    fn part_of(_alloc: Global, _depth: u32, tokens: &[Token]) -> Read<'_, NamePart> {
        let (scope, rest) = place_of(Mark::Scope, tokens)?;
        let (name, rest) = identifier_of(rest)?;
        Ok((NamePart { scope, name }, rest))
    }
}

impl Part for Name {
    ghost View = { trees.Name };

    ghost part_view = { name_view };

    ghost part_at = { λ depth. behind_sign marks.Comma name_at };

    fn part_of(alloc: Global, _depth: u32, tokens: &[Token]) -> Read<'_, Name> {
        let rest = mark_of(Mark::Comma, tokens)?;
        name_of(alloc, rest)
    }
}

impl Part for Identifier {
    ghost View = { Identifier };

    ghost part_view = { λ identifier. identifier };

    ghost part_at = { λ depth. behind_sign marks.Comma identifier_at };

    fn part_of(_alloc: Global, _depth: u32, tokens: &[Token]) -> Read<'_, Identifier> {
        let rest = mark_of(Mark::Comma, tokens)?;
        identifier_of(rest)
    }
}

#[tactic(auto, unfolding(crate::specs::Productions::name_at))]
pub(super) fn name_of(alloc: Global, tokens: &[Token]) -> Read<'_, Name>
    ensures { Gives (λ x. (name_view x.0, map seen x.1.now)) result (name_at (map seen tokens.now)) }
{
    let (leading, rest) = leading_scope_of(tokens)?;
    let (first, rest) = identifier_of(rest)?;
    let (others, rest) = parts_of(alloc, 0, Start::At(Mark::Scope), rest)?;
    let name = Name {
        leading,
        first,
        others,
    };
    Ok((name, rest))
}

#[tactic(auto, unfolding(crate::specs::Productions::names_at))]
pub(super) fn names_of(alloc: Global, tokens: &[Token]) -> Read<'_, Names>
    ensures { Gives (λ x. (names_view x.0, map seen x.1.now)) result (names_at (map seen tokens.now)) }
{
    let (first, rest) = name_of(alloc, tokens)?;
    let (others, rest) = parts_of(alloc, 0, Start::At(Mark::Comma), rest)?;
    Ok((Names { first, others }, rest))
}

#[tactic(auto, unfolding(crate::specs::Productions::identifiers_at))]
pub(super) fn identifiers_of(alloc: Global, tokens: &[Token]) -> Read<'_, Identifiers>
    ensures { Gives (λ x. (identifiers_view x.0, map seen x.1.now)) result (identifiers_at (map seen tokens.now)) }
{
    let (first, rest) = identifier_of(tokens)?;
    let (others, rest) = parts_of(alloc, 0, Start::At(Mark::Comma), rest)?;
    Ok((Identifiers { first, others }, rest))
}
