// Storage types, storage homes and catalogs.
ghost use Rattle.std.specs.Prelude.{◌≡◌, ◌-◌, map, option_map};
ghost use Rattle.part_readers.specs.Reading.{Gives, starts};
ghost use Rattle.psdl_syntax.specs.Seen.{seen};
ghost use Rattle.psdl_tree.specs.Views.{names_view, name_view, abstract_type_member_view, abstract_type_body_view, abstract_type_view, storage_type_body_view, storage_type_view, abstract_home_member_view, abstract_home_body_view, abstract_home_view, home_member_view, storage_home_view, provision_view, catalog_view, key_view};
ghost use Rattle.psdl_syntax.specs.Productions.{is_abstract_type_body, is_storage_type_body, bases_at, base_at, implements_at, abstract_type_member_at, abstract_type_members_at, abstract_type_body_at, abstract_type_at, states_at, storage_type_body_at, storage_type_at, abstract_home_member_at, abstract_home_members_at, abstract_home_body_at, abstract_home_at, primary_key_at, home_member_at, home_members_at, storage_home_at, provision_at, provisions_at, catalog_at};
ghost use Rattle.psdl_tree.specs.Trees as trees;

use super::lists::{Part, braced_of};
use super::members::{at_state, factory_of, key_of, operation_of};
use super::names::{name_of, names_of};
use super::words::{
    Read, at_keyword, at_mark, before, behind_keyword, identifier_of, keyword_of, mark_of, open_of,
};
use psdl_tokens::{Keyword, Mark, Token};
use psdl_tree::{
    AbstractHome, AbstractHomeBody, AbstractHomeMember, AbstractType, AbstractTypeBody,
    AbstractTypeMember, Catalog, HomeMember, Key, Name, Names, Provision, State, StorageHome,
    StorageType, StorageTypeBody,
};
use std::alloc::Global;

#[tactic(auto, unfolding(crate::specs::Productions::bases_at))]
fn bases_of(alloc: Global, tokens: &[Token]) -> Read<'_, Option<Names>>
    ensures { Gives (λ x. (option_map names_view x.0, map seen x.1.now)) result (bases_at (map seen tokens.now)) }
{
    if at_mark(Mark::Colon, tokens) {
        let rest = mark_of(Mark::Colon, tokens)?;
        let (names, rest) = names_of(alloc, rest)?;
        return Ok((Some(names), rest));
    }
    Ok((None, tokens))
}

#[tactic(auto, unfolding(crate::specs::Productions::base_at))]
fn base_of(alloc: Global, tokens: &[Token]) -> Read<'_, Option<Name>>
    ensures { Gives (λ x. (option_map name_view x.0, map seen x.1.now)) result (base_at (map seen tokens.now)) }
{
    if at_mark(Mark::Colon, tokens) {
        let rest = mark_of(Mark::Colon, tokens)?;
        let (name, rest) = name_of(alloc, rest)?;
        return Ok((Some(name), rest));
    }
    Ok((None, tokens))
}

#[tactic(auto, unfolding(crate::specs::Productions::implements_at))]
fn implements_of(alloc: Global, tokens: &[Token]) -> Read<'_, Option<Names>>
    ensures { Gives (λ x. (option_map names_view x.0, map seen x.1.now)) result (implements_at (map seen tokens.now)) }
{
    let Some(rest) = behind_keyword(Keyword::Implements, tokens) else {
        return Ok((None, tokens));
    };
    let (names, rest) = names_of(alloc, rest)?;
    Ok((Some(names), rest))
}

impl Part for AbstractTypeMember {
    ghost View = { trees.AbstractTypeMember };

    ghost part_view = { abstract_type_member_view };

    ghost part_at = { abstract_type_member_at };

    #[tactic(auto, unfolding(crate::specs::Productions::abstract_type_member_at))]
    fn part_of(alloc: Global, depth: u32, tokens: &[Token]) -> Read<'_, AbstractTypeMember> {
        if at_state(tokens) {
            let (state, rest) = State::part_of(alloc, depth, tokens)?;
            return Ok((AbstractTypeMember::State(state), rest));
        }
        let (operation, rest) = operation_of(alloc, depth, tokens)?;
        Ok((AbstractTypeMember::Operation(operation), rest))
    }
}

#[tactic(auto, unfolding(crate::specs::Productions::abstract_type_body_at, crate::specs::Productions::abstract_type_members_at))]
fn abstract_type_body_of(alloc: Global, depth: u32, tokens: &[Token]) -> Read<'_, AbstractTypeBody>
    ensures { Gives (λ x. (abstract_type_body_view x.0, map seen x.1.now)) result (abstract_type_body_at depth (map seen tokens.now)) }
{
    let (bases, rest) = bases_of(alloc, tokens)?;
    let (members, rest) = braced_of(alloc, depth, rest)?;
    Ok((AbstractTypeBody { bases, members }, rest))
}

fn at_abstract_type_body(tokens: &[Token]) -> bool
    ensures { result ≡ starts is_abstract_type_body (map seen tokens.now) }
{
    at_mark(Mark::Colon, tokens) || at_mark(Mark::LeftBrace, tokens)
}

#[tactic(auto, unfolding(crate::specs::Productions::abstract_type_at))]
pub(super) fn abstract_type_of(
    alloc: Global,
    depth: u32,
    tokens: &[Token],
) -> Read<'_, AbstractType>
    ensures { Gives (λ x. (abstract_type_view x.0, map seen x.1.now)) result (abstract_type_at depth (map seen tokens.now)) }
{
    let rest = keyword_of(Keyword::StorageType, tokens)?;
    let (name, rest) = identifier_of(rest)?;
    if at_abstract_type_body(rest) {
        let (body, rest) = abstract_type_body_of(alloc, depth, rest)?;
        let body = Some(body);
        return Ok((AbstractType { name, body }, rest));
    }
    Ok((AbstractType { name, body: None }, rest))
}

#[tactic(auto, unfolding(crate::specs::Productions::storage_type_body_at, crate::specs::Productions::states_at))]
fn storage_type_body_of(alloc: Global, depth: u32, tokens: &[Token]) -> Read<'_, StorageTypeBody>
    ensures { Gives (λ x. (storage_type_body_view x.0, map seen x.1.now)) result (storage_type_body_at depth (map seen tokens.now)) }
{
    let (base, rest) = base_of(alloc, tokens)?;
    let (implements, rest) = implements_of(alloc, rest)?;
    let (states, rest) = braced_of(alloc, depth, rest)?;
    let body = StorageTypeBody {
        base,
        implements,
        states,
    };
    Ok((body, rest))
}

fn at_storage_type_body(tokens: &[Token]) -> bool
    ensures { result ≡ starts is_storage_type_body (map seen tokens.now) }
{
    at_mark(Mark::Colon, tokens)
        || at_keyword(Keyword::Implements, tokens)
        || at_mark(Mark::LeftBrace, tokens)
}

#[tactic(auto, unfolding(crate::specs::Productions::storage_type_at))]
pub(super) fn storage_type_of(alloc: Global, depth: u32, tokens: &[Token]) -> Read<'_, StorageType>
    ensures { Gives (λ x. (storage_type_view x.0, map seen x.1.now)) result (storage_type_at depth (map seen tokens.now)) }
{
    let rest = keyword_of(Keyword::StorageType, tokens)?;
    let (name, rest) = identifier_of(rest)?;
    if at_storage_type_body(rest) {
        let (body, rest) = storage_type_body_of(alloc, depth, rest)?;
        let body = Some(body);
        return Ok((StorageType { name, body }, rest));
    }
    Ok((StorageType { name, body: None }, rest))
}

impl Part for AbstractHomeMember {
    ghost View = { trees.AbstractHomeMember };

    ghost part_view = { abstract_home_member_view };

    ghost part_at = { abstract_home_member_at };

    #[tactic(auto, unfolding(crate::specs::Productions::abstract_home_member_at))]
    fn part_of(alloc: Global, depth: u32, tokens: &[Token]) -> Read<'_, AbstractHomeMember> {
        if at_keyword(Keyword::Key, tokens) {
            let (key, rest) = key_of(alloc, depth, tokens)?;
            return Ok((AbstractHomeMember::Key(key), rest));
        }
        if at_keyword(Keyword::Factory, tokens) {
            let (factory, rest) = factory_of(alloc, depth, tokens)?;
            return Ok((AbstractHomeMember::Factory(factory), rest));
        }
        let (operation, rest) = operation_of(alloc, depth, tokens)?;
        Ok((AbstractHomeMember::Operation(operation), rest))
    }
}

#[tactic(auto, unfolding(crate::specs::Productions::abstract_home_body_at, crate::specs::Productions::abstract_home_members_at))]
fn abstract_home_body_of(alloc: Global, depth: u32, tokens: &[Token]) -> Read<'_, AbstractHomeBody>
    ensures { Gives (λ x. (abstract_home_body_view x.0, map seen x.1.now)) result (abstract_home_body_at depth (map seen tokens.now)) }
{
    let rest = keyword_of(Keyword::Of, tokens)?;
    let (managed, rest) = name_of(alloc, rest)?;
    let (bases, rest) = bases_of(alloc, rest)?;
    let (members, rest) = braced_of(alloc, depth, rest)?;
    let body = AbstractHomeBody {
        managed,
        bases,
        members,
    };
    Ok((body, rest))
}

#[tactic(auto, unfolding(crate::specs::Productions::abstract_home_at))]
pub(super) fn abstract_home_of(
    alloc: Global,
    depth: u32,
    tokens: &[Token],
) -> Read<'_, AbstractHome>
    ensures { Gives (λ x. (abstract_home_view x.0, map seen x.1.now)) result (abstract_home_at depth (map seen tokens.now)) }
{
    let rest = keyword_of(Keyword::StorageHome, tokens)?;
    let (name, rest) = identifier_of(rest)?;
    if at_keyword(Keyword::Of, rest) {
        let (body, rest) = abstract_home_body_of(alloc, depth, rest)?;
        let body = Some(body);
        return Ok((AbstractHome { name, body }, rest));
    }
    Ok((AbstractHome { name, body: None }, rest))
}

#[tactic(auto, unfolding(crate::specs::Productions::primary_key_at))]
fn primary_key_of(alloc: Global, depth: u32, tokens: &[Token]) -> Read<'_, Key>
    ensures { Gives (λ x. (key_view x.0, map seen x.1.now)) result (primary_key_at depth (map seen tokens.now)) }
{
    let rest = keyword_of(Keyword::Primary, tokens)?;
    key_of(alloc, depth, rest)
}

impl Part for HomeMember {
    ghost View = { trees.HomeMember };

    ghost part_view = { home_member_view };

    ghost part_at = { home_member_at };

    #[tactic(auto, unfolding(crate::specs::Productions::home_member_at))]
    fn part_of(alloc: Global, depth: u32, tokens: &[Token]) -> Read<'_, HomeMember> {
        if at_keyword(Keyword::Key, tokens) {
            let (key, rest) = key_of(alloc, depth, tokens)?;
            return Ok((HomeMember::Key(key), rest));
        }
        if at_keyword(Keyword::Primary, tokens) {
            let (key, rest) = primary_key_of(alloc, depth, tokens)?;
            return Ok((HomeMember::PrimaryKey(key), rest));
        }
        let (factory, rest) = factory_of(alloc, depth, tokens)?;
        Ok((HomeMember::Factory(factory), rest))
    }
}

#[tactic(auto, unfolding(crate::specs::Productions::storage_home_at, crate::specs::Productions::home_members_at))]
pub(super) fn storage_home_of(alloc: Global, depth: u32, tokens: &[Token]) -> Read<'_, StorageHome>
    ensures { Gives (λ x. (storage_home_view x.0, map seen x.1.now)) result (storage_home_at depth (map seen tokens.now)) }
{
    let rest = keyword_of(Keyword::StorageHome, tokens)?;
    let (name, rest) = identifier_of(rest)?;
    let (base, rest) = base_of(alloc, rest)?;
    let rest = keyword_of(Keyword::Of, rest)?;
    let (managed, rest) = name_of(alloc, rest)?;
    let (implements, rest) = implements_of(alloc, rest)?;
    let (members, rest) = braced_of(alloc, depth, rest)?;
    let home = StorageHome {
        name,
        base,
        managed,
        implements,
        members,
    };
    Ok((home, rest))
}

impl Part for Provision {
    ghost View = { trees.Provision };

    ghost part_view = { provision_view };

    ghost part_at = { λ depth. provision_at };

    #[tactic(auto, unfolding(crate::specs::Productions::provision_at))]
    fn part_of(alloc: Global, _depth: u32, tokens: &[Token]) -> Read<'_, Provision> {
        let rest = keyword_of(Keyword::Provides, tokens)?;
        let (home, rest) = name_of(alloc, rest)?;
        let (name, rest) = identifier_of(rest)?;
        let provision = Provision { home, name };
        let (provision, rest) = before(Mark::Semicolon, provision, rest)?;
        Ok((provision, rest))
    }
}

#[tactic(auto, unfolding(crate::specs::Productions::catalog_at, crate::specs::Productions::provisions_at))]
pub(super) fn catalog_of(alloc: Global, depth: u32, tokens: &[Token]) -> Read<'_, Catalog>
    ensures { Gives (λ x. (catalog_view x.0, map seen x.1.now)) result (catalog_at depth (map seen tokens.now)) }
{
    let rest = keyword_of(Keyword::Catalog, tokens)?;
    let (name, rest) = identifier_of(rest)?;
    let (provisions, rest) = braced_of(alloc, depth, rest)?;
    Ok((Catalog { name, provisions }, rest))
}
