// Definitions and whole texts.
ghost use Rattle.std.specs.Prelude.{◌-◌, map};
ghost use Rattle.part_readers.specs.Reading.{Gives, many};
ghost use Rattle.psdl_syntax.specs.Seen.{seen};
ghost use Rattle.psdl_tree.specs.Views.{constant_type_view, constant_view, type_definition_view, struct_view, field_view, enumeration_view, identifiers_view, definition_view};
ghost use Rattle.psdl_syntax.specs.Productions.{is_inside, braces, fields_at, identifiers_at, constant_type_at, constant_at, type_definition_at, struct_at, enumeration_at, module_with, abstract_at, body_with, definition_with, definitions_inside, definition_at};
ghost use Rattle.psdl_tree.specs.Trees as trees;

use super::expressions::expression_of;
use super::lists::Part;
use super::names::{identifiers_of, name_of};
use super::stores::{
    abstract_home_of, abstract_type_of, catalog_of, storage_home_of, storage_type_of,
};
use super::types::{at_integer_type, declarators_of, fields_of, integer_type_of, type_spec_of};
use super::words::{
    Read, at_keyword, before, before_brace, behind_keyword, identifier_of, keyword_of, mark_of,
    open_of,
};
use psdl_tokens::{Keyword, Mark, Token};
use psdl_tree::{
    Constant, ConstantType, Definition, Enumeration, Field, Identifier, Identifiers, Module,
    Struct, TypeDefinition,
};
use std::alloc::Global;

#[tactic(auto, unfolding(crate::specs::Productions::constant_type_at))]
fn constant_type_of(alloc: Global, tokens: &[Token]) -> Read<'_, ConstantType>
    ensures { Gives (λ x. (constant_type_view x.0, map seen x.1.now)) result (constant_type_at (map seen tokens.now)) }
{
    if at_integer_type(tokens) {
        let (integer, rest) = integer_type_of(tokens)?;
        return Ok((ConstantType::Integer(integer), rest));
    }
    if let Some(rest) = behind_keyword(Keyword::Octet, tokens) {
        return Ok((ConstantType::Octet, rest));
    }
    if let Some(rest) = behind_keyword(Keyword::String, tokens) {
        return Ok((ConstantType::String, rest));
    }
    let (name, rest) = name_of(alloc, tokens)?;
    Ok((ConstantType::Name(name), rest))
}

#[tactic(auto, unfolding(crate::specs::Productions::constant_at))]
fn constant_of(alloc: Global, depth: u32, tokens: &[Token]) -> Read<'_, Constant>
    ensures { Gives (λ x. (constant_view x.0, map seen x.1.now)) result (constant_at depth (map seen tokens.now)) }
{
    let rest = keyword_of(Keyword::Const, tokens)?;
    let (constant_type, rest) = constant_type_of(alloc, rest)?;
    let (name, rest) = identifier_of(rest)?;
    let rest = mark_of(Mark::Equals, rest)?;
    let (value, rest) = expression_of(alloc, depth, rest)?;
    let constant = Constant {
        constant_type,
        name,
        value,
    };
    Ok((constant, rest))
}

#[tactic(auto, unfolding(crate::specs::Productions::type_definition_at))]
fn type_definition_of(alloc: Global, depth: u32, tokens: &[Token]) -> Read<'_, TypeDefinition>
    ensures { Gives (λ x. (type_definition_view x.0, map seen x.1.now)) result (type_definition_at depth (map seen tokens.now)) }
{
    let rest = keyword_of(Keyword::Typedef, tokens)?;
    let (spec, rest) = type_spec_of(alloc, depth, rest)?;
    let (declarators, rest) = declarators_of(alloc, depth, rest)?;
    Ok((TypeDefinition { spec, declarators }, rest))
}

fn braced_fields_of(alloc: Global, depth: u32, tokens: &[Token]) -> Read<'_, (Field, Vec<Field>)>
    ensures { Gives (λ x. ((field_view x.0.0, map field_view x.0.1.items), map seen x.1.now)) result (braces (fields_at (depth - 1)) depth (map seen tokens.now)) }
{
    let rest = open_of(Mark::LeftBrace, depth, tokens)?;
    let (fields, rest) = fields_of(alloc, depth - 1, rest)?;
    let (fields, rest) = before(Mark::RightBrace, fields, rest)?;
    Ok((fields, rest))
}

#[tactic(auto, unfolding(crate::specs::Productions::struct_at))]
fn struct_of(alloc: Global, depth: u32, tokens: &[Token]) -> Read<'_, Struct>
    ensures { Gives (λ x. (struct_view x.0, map seen x.1.now)) result (struct_at depth (map seen tokens.now)) }
{
    let rest = keyword_of(Keyword::Struct, tokens)?;
    let (name, rest) = identifier_of(rest)?;
    let ((first, others), rest) = braced_fields_of(alloc, depth, rest)?;
    let structure = Struct {
        name,
        first,
        others,
    };
    Ok((structure, rest))
}

fn braced_identifiers_of(alloc: Global, depth: u32, tokens: &[Token]) -> Read<'_, Identifiers>
    ensures { Gives (λ x. (identifiers_view x.0, map seen x.1.now)) result (braces identifiers_at depth (map seen tokens.now)) }
{
    let rest = open_of(Mark::LeftBrace, depth, tokens)?;
    let (names, rest) = identifiers_of(alloc, rest)?;
    let (names, rest) = before(Mark::RightBrace, names, rest)?;
    Ok((names, rest))
}

#[tactic(auto, unfolding(crate::specs::Productions::enumeration_at))]
fn enumeration_of(alloc: Global, depth: u32, tokens: &[Token]) -> Read<'_, Enumeration>
    ensures { Gives (λ x. (enumeration_view x.0, map seen x.1.now)) result (enumeration_at depth (map seen tokens.now)) }
{
    let rest = keyword_of(Keyword::Enum, tokens)?;
    let (name, rest) = identifier_of(rest)?;
    let (enumerators, rest) = braced_identifiers_of(alloc, depth, rest)?;
    Ok((Enumeration { name, enumerators }, rest))
}

#[cycle(definitions)]
#[tactic(auto, unfolding(crate::specs::Productions::module_with), using(crate::proofs::Depths::definitions_inside_is))]
fn module_of(alloc: Global, depth: u32, tokens: &[Token]) -> Read<'_, (Identifier, Vec<Definition>)>
    ensures { Gives (λ x. ((x.0.0, map definition_view x.0.1.items), map seen x.1.now)) result (module_with (definitions_inside depth) depth (map seen tokens.now)) }
{
    let rest = keyword_of(Keyword::Module, tokens)?;
    let (name, rest) = identifier_of(rest)?;
    let rest = open_of(Mark::LeftBrace, depth, rest)?;
    let (definitions, rest) = definitions_of(alloc, depth - 1, rest)?;
    let (parts, rest) = before(Mark::RightBrace, (name, definitions), rest)?;
    Ok((parts, rest))
}

#[cycle(definitions)]
fn definitions_of(alloc: Global, depth: u32, tokens: &[Token]) -> Read<'_, Vec<Definition>>
    ensures { Gives (λ x. (map definition_view x.0.items, map seen x.1.now)) result (many is_inside (definition_at depth) (map seen tokens.now)) }
{
    let mut items = Vec::new(alloc);
    let mut rest = tokens;
    for _ in 0..tokens.len() {
        if !before_brace(rest) {
            return Ok((items, rest));
        }
        let (item, after) = definition_of(alloc, depth, rest)?;
        items.push(item)?;
        rest = after;
    }
    Ok((items, rest))
}

#[cycle(definitions)]
#[tactic(auto, unfolding(crate::specs::Productions::definition_at, crate::specs::Productions::definition_with))]
fn definition_of(alloc: Global, depth: u32, tokens: &[Token]) -> Read<'_, Definition>
    ensures { Gives (λ x. (definition_view x.0, map seen x.1.now)) result (definition_at depth (map seen tokens.now)) }
{
    let (definition, rest) = body_of(alloc, depth, tokens)?;
    let (definition, rest) = before(Mark::Semicolon, definition, rest)?;
    Ok((definition, rest))
}

#[cycle(definitions)]
#[tactic(auto, unfolding(crate::specs::Productions::body_with, crate::specs::Productions::abstract_at))]
fn body_of(alloc: Global, depth: u32, tokens: &[Token]) -> Read<'_, Definition>
    ensures { Gives (λ x. (definition_view x.0, map seen x.1.now)) result (body_with (definitions_inside depth) depth (map seen tokens.now)) }
{
    if at_keyword(Keyword::Module, tokens) {
        let ((name, definitions), rest) = module_of(alloc, depth, tokens)?;
        return Ok((Definition::Module(Module { name, definitions }), rest));
    }
    if at_keyword(Keyword::Const, tokens) {
        let (constant, rest) = constant_of(alloc, depth, tokens)?;
        return Ok((Definition::Constant(constant), rest));
    }
    if at_keyword(Keyword::Typedef, tokens) {
        let (definition, rest) = type_definition_of(alloc, depth, tokens)?;
        return Ok((Definition::TypeDefinition(definition), rest));
    }
    if at_keyword(Keyword::Struct, tokens) {
        let (structure, rest) = struct_of(alloc, depth, tokens)?;
        return Ok((Definition::Struct(structure), rest));
    }
    if at_keyword(Keyword::Enum, tokens) {
        let (enumeration, rest) = enumeration_of(alloc, depth, tokens)?;
        return Ok((Definition::Enumeration(enumeration), rest));
    }
    if at_keyword(Keyword::Abstract, tokens) {
        let rest = keyword_of(Keyword::Abstract, tokens)?;
        if at_keyword(Keyword::StorageType, rest) {
            let (storage_type, rest) = abstract_type_of(alloc, depth, rest)?;
            return Ok((Definition::AbstractType(storage_type), rest));
        }
        let (home, rest) = abstract_home_of(alloc, depth, rest)?;
        return Ok((Definition::AbstractHome(home), rest));
    }
    if at_keyword(Keyword::StorageType, tokens) {
        let (storage_type, rest) = storage_type_of(alloc, depth, tokens)?;
        return Ok((Definition::StorageType(storage_type), rest));
    }
    if at_keyword(Keyword::StorageHome, tokens) {
        let (home, rest) = storage_home_of(alloc, depth, tokens)?;
        return Ok((Definition::StorageHome(home), rest));
    }
    let (catalog, rest) = catalog_of(alloc, depth, tokens)?;
    Ok((Definition::Catalog(catalog), rest))
}

// What stands in a whole text. A module reads its definitions by a loop of its own, since that loop leads back to itself.
impl Part for Definition {
    ghost View = { trees.Definition };

    ghost part_view = { definition_view };

    ghost part_at = { definition_at };

    fn part_of(alloc: Global, depth: u32, tokens: &[Token]) -> Read<'_, Definition> {
        definition_of(alloc, depth, tokens)
    }
}
