// How deep what declarations spell nests.
ghost use Rattle.std.specs.Prelude.{◌≡◌, ◌<◌, ◌+◌, ◌==◌, ℕ, List, nat_lt, false, length, map, None, option_map, slice_index_or, IfOk};
ghost use Rattle.std.specs.List.{range_with_len};
ghost use Rattle.type_layout.specs.Schemas.{given};
ghost use Rattle.type_layout.specs.Types.{PlainType as Laid};
ghost use Rattle.psdl_tree.specs.Views.{name_view, plain_type_view, type_spec_view, declarators_view, field_view, struct_view};
ghost use Rattle.psdl_directory.specs.Declarations as whats;
ghost use Rattle.psdl_directory.specs.Directories.{all_of};
ghost use Rattle.psdl_directory.specs.Lookup.{at};
ghost use Rattle.psdl_standings.specs.Depths as depths;
ghost use Rattle.psdl_standings.specs.Nesting.{plain_nesting, spec_nesting, struct_nesting, nesting_of};
ghost use Rattle.psdl_standings.specs.Standings.{Standing};
ghost use Rattle.psdl_standings.specs.Turns.{AreInTurn};
ghost use Rattle.psdl_standings.specs.inner.Levels.{depth, part_depth, names_at, raised, deeper, declarators_depth, field_depth, all_deep, alias_depth};
ghost use Rattle.psdl_standings.specs.inner.Measured.{cut, IsLevelled};
ghost use Rattle.psdl_standings.specs.inner.Tellings.{stand};

use crate::levels::{DEEPEST, TOO_DEEP};
use crate::numbered_standing::NumberedStanding;
use psdl_directory::{DeclarationNo, Directory, Spelling, What};
use psdl_tree::{Declarators, Field, Name, PlainType, Struct, TypeSpec};
use pss_base::NoMemory;
use std::alloc::Global;

// A place in the scope of a declaration, at which the first so many stand, with how deep what they stand for nests. A
// declaration's own name may be no part.
#[derive(Clone, Copy)]
struct Parts<'b, 'a> {
    directory: &'b Directory<'a>,
    levels: &'b [usize],
    limit: usize,
    number: DeclarationNo,
    own: Option<DeclarationNo>,
}

fn is_own(own: Option<DeclarationNo>, meant: DeclarationNo) -> bool
    ensures { result ≡ given own false (λ k. meant == k) }
{
    match own {
        Some(number) => meant.index() == number.index(),
        None => false,
    }
}

fn level_at(levels: &[usize], number: usize) -> usize
    ensures { result ≡ slice_index_or levels.now number 1 }
{
    if number < levels.len() {
        levels[number]
    } else {
        1
    }
}

fn part_depth(parts: &Parts<'_, '_>, meant: DeclarationNo) -> usize
    ensures { result ≡ cut (part_depth parts.now.levels.now parts.now.own meant) }
{
    if is_own(parts.own, meant) {
        0
    } else {
        level_at(parts.levels, meant.index()).min(TOO_DEEP)
    }
}

fn name_nesting(
    alloc: Global,
    parts: &Parts<'_, '_>,
    name: &Name,
) -> Result<Option<usize>, NoMemory>
    ensures { IfOk result (λ k. k ≡ option_map cut (names_at parts.now (name_view name.now))) }
{
    let Parts {
        directory,
        limit,
        number,
        ..
    } = *parts;
    let meaning = directory.meaning(alloc, Spelling::AsIs, limit, number, name)?;
    match meaning {
        Some(meant) => Ok(Some(part_depth(parts, meant))),
        None => Ok(None),
    }
}

fn plain_nesting(
    alloc: Global,
    parts: &Parts<'_, '_>,
    plain: &PlainType,
) -> Result<Option<usize>, NoMemory>
    ensures { IfOk result (λ k. k ≡ option_map cut (plain_nesting (names_at parts.now) (plain_type_view plain.now))) }
{
    match plain {
        PlainType::Name(name) => name_nesting(alloc, parts, name),
        _ => Ok(Some(1)),
    }
}

// So many more levels.
fn raised(nesting: Option<usize>, levels: usize) -> Option<usize>
    ensures { result ≡ raised nesting levels }
{
    match nesting {
        Some(inner) => Some(inner.saturating_add(levels).min(TOO_DEEP)),
        None => None,
    }
}

// The deeper one, where both are there.
fn deeper(first: Option<usize>, second: Option<usize>) -> Option<usize>
    ensures { result ≡ deeper first second }
{
    match (first, second) {
        (Some(one), Some(other)) => Some(one.max(other)),
        _ => None,
    }
}

fn spec_nesting(
    alloc: Global,
    parts: &Parts<'_, '_>,
    spec: &TypeSpec,
) -> Result<Option<usize>, NoMemory>
    ensures { IfOk result (λ k. k ≡ option_map cut (spec_nesting (names_at parts.now) (type_spec_view spec.now))) }
{
    match spec {
        TypeSpec::Plain(plain) => plain_nesting(alloc, parts, plain),
        TypeSpec::Sequence(item, _) => {
            let inner = spec_nesting(alloc, parts, item)?;
            Ok(raised(inner, 1))
        }
    }
}

// The deepest of the declarators, by the nesting of their type.
fn declarators_nesting(spec: Option<usize>, declarators: &Declarators) -> Option<usize>
    ensures { result ≡ declarators_depth spec (declarators_view declarators.now) }
{
    let mut deepest = raised(spec, declarators.first.dimensions.len());
    for declarator in &declarators.others {
        deepest = deeper(deepest, raised(spec, declarator.dimensions.len()));
    }
    deepest
}

fn field_nesting(
    alloc: Global,
    parts: &Parts<'_, '_>,
    field: &Field,
) -> Result<Option<usize>, NoMemory>
    ensures { IfOk result (λ k. k ≡ field_depth (names_at parts.now) (field_view field.now)) }
{
    let spec = spec_nesting(alloc, parts, &field.spec)?;
    Ok(declarators_nesting(spec, &field.declarators))
}

fn fields_nesting(
    alloc: Global,
    parts: &Parts<'_, '_>,
    fields: &[Field],
) -> Result<Option<usize>, NoMemory>
    ensures { IfOk result (λ k. k ≡ all_deep (field_depth (names_at parts.now)) (map field_view fields.now)) }
{
    let mut deepest = Some(0);
    for field in fields {
        let nesting = field_nesting(alloc, parts, field)?;
        deepest = deeper(deepest, nesting);
    }
    Ok(deepest)
}

fn struct_nesting(
    alloc: Global,
    parts: &Parts<'_, '_>,
    structure: &Struct,
) -> Result<Option<usize>, NoMemory>
    ensures { IfOk result (λ k. k ≡ option_map cut (struct_nesting (names_at parts.now) (struct_view structure.now))) }
{
    let first = field_nesting(alloc, parts, &structure.first)?;
    let others = fields_nesting(alloc, parts, &structure.others)?;
    Ok(raised(deeper(first, others), 1))
}

// The nesting of the type of the typedef that a declaration is of, by that of the one in front.
fn alias_nesting(
    alloc: Global,
    directory: &Directory<'_>,
    levels: &[usize],
    number: DeclarationNo,
    last: Option<usize>,
) -> Result<Option<usize>, NoMemory>
    requires number { number < length (all_of directory.now) }
    requires turn { AreInTurn (all_of directory.now) }
    requires last { (n : ℕ) → number ≡ n + 1 → last ≡ alias_depth (all_of directory.now) levels.now n }
    ensures { IfOk result (λ k. k ≡ alias_depth (all_of directory.now) levels.now number) }
{
    match directory.what(number) {
        What::Alias(0, spec, _) => {
            let before = Parts {
                directory,
                levels,
                limit: number.index(),
                number,
                own: None,
            };
            spec_nesting(alloc, &before, spec)
        }
        What::Alias(_, _, _) => Ok(last),
        _ => Ok(None),
    }
}

// The nesting that a struct spells.
fn spelled_struct(
    alloc: Global,
    directory: &Directory<'_>,
    levels: &[usize],
    number: DeclarationNo,
    structure: &Struct,
) -> Result<Option<usize>, NoMemory>
    requires { number < length (all_of directory.now) }
    ensures { IfOk result (λ k. (done : List Standing) → levels.now ≡ map depth done → k ≡ option_map cut (nesting_of (all_of directory.now) done number (at (all_of directory.now) number).path (whats.IsStruct (struct_view structure.now)))) }
{
    let own = directory.origin(number);
    let body = Parts {
        directory,
        levels,
        limit: number.index() + 1,
        number,
        own,
    };
    let nesting = struct_nesting(alloc, &body, structure)?;
    Ok(nesting)
}

fn is_deep(nesting: Option<usize>) -> bool
    ensures { result ≡ given nesting false (λ k. nat_lt 32 k) }
{
    match nesting {
        Some(levels) => DEEPEST < levels,
        None => false,
    }
}

// What a typedef's declarator or a struct spells nests too deep. The nesting of the typedef's type is `spec`.
fn spells_deep(
    alloc: Global,
    directory: &Directory<'_>,
    levels: &[usize],
    number: DeclarationNo,
    spec: Option<usize>,
) -> Result<bool, NoMemory>
    requires number { number < length (all_of directory.now) }
    requires spec { spec ≡ alias_depth (all_of directory.now) levels.now number }
    ensures { IfOk result (λ b. (done : List Standing) → levels.now ≡ map depth done → b ≡ depths.is_deep (all_of directory.now) done number) }
{
    match directory.what(number) {
        What::Alias(_, _, dimensions) => Ok(is_deep(raised(spec, dimensions.len()))),
        What::Struct(structure) => {
            let nesting = spelled_struct(alloc, directory, levels, number, structure)?;
            Ok(is_deep(nesting))
        }
        _ => Ok(false),
    }
}

/// Which declarations spell what nests too deep, by how deep what each stands for nests.
pub(crate) fn deep_of(
    alloc: Global,
    directory: &Directory<'_>,
    levels: &[usize],
) -> Result<Vec<bool>, NoMemory>
    requires { AreInTurn (all_of directory.now) }
    ensures { IfOk result (λ v. (done : List Standing) → levels.now ≡ map depth done → v.items ≡ map (depths.is_deep (all_of directory.now) done) (range_with_len 0 (length (all_of directory.now)))) }
{
    let mut deep = Vec::new(alloc);
    let mut spec = None;
    for index in 0..directory.len() {
        let number = DeclarationNo::new(index);
        spec = alias_nesting(alloc, directory, levels, number, spec)?;
        let one = spells_deep(alloc, directory, levels, number, spec)?;
        deep.push(one)?;
    }
    Ok(deep)
}

// How deep what is told of a declaration nests, by how deep types do.
fn told_level(told: NumberedStanding, levels: &[usize]) -> usize
    ensures { (types : List Laid) → IsLevelled types levels.now → result ≡ depth (stand types told) }
{
    match told.type_number() {
        Some(number) => level_at(levels, number),
        None => 1,
    }
}

/// How deep what is told of declarations nests.
pub(crate) fn told_levels(
    alloc: Global,
    told: &[NumberedStanding],
    levels: &[usize],
) -> Result<Vec<usize>, NoMemory>
    ensures { IfOk result (λ v. (types : List Laid) → IsLevelled types levels.now → v.items ≡ map depth (map (stand types) told.now)) }
{
    let mut nested = Vec::new(alloc);
    for one in told {
        nested.push(told_level(*one, levels))?;
    }
    Ok(nested)
}
