// The walk over a tree that finds its declarations.
ghost use Rattle.std.specs.Prelude.{◌≡◌, ◌<◌, ◌++◌, ◌∷◌, [], length, map, option_map, false, IfSome, IfOk, OnOk};
ghost use Rattle.std.specs.Option.{option_to_list};
ghost use Rattle.psdl_tree.specs.Trees.{TypeDefinitionDefinition, EnumerationDefinition};
ghost use Rattle.psdl_tree.specs.Views as views;
ghost use Rattle.psdl_directory.specs.Declarations.{Path, IsModule, IsEnumerator, declared, aliases, declared_by, declarations, all_declarations};
ghost use Rattle.psdl_directory.specs.Parts.{is_module};
ghost use Rattle.psdl_directory.specs.inner.Nodes.{what_view, declaration_view};
ghost use Rattle.psdl_directory.specs.inner.Flattened.{all_in, single, plain};
ghost use Rattle.psdl_directory.specs.inner.Placed.{IsPlaced};
ghost use Rattle.psdl_directory.specs.inner.Scopes.{path_at, Grows};

use crate::declaration::{Declaration, What};
use crate::flat::Flat;
use crate::scopes::Scopes;
use psdl_tree::{
    Declarator, Definition, Enumeration, Identifier, Module, Tree, TypeDefinition, TypeSpec,
};
use pss_base::NoMemory;
use std::alloc::Global;

fn push<'a>(flat: &mut Flat<'a>, declaration: Declaration<'a>) -> Result<(), NoMemory>
    requires { IsPlaced flat.old.scopes declaration }
    ensures scopes { OnOk result (flat.new.scopes ≡ flat.old.scopes) }
    ensures declarations { OnOk result (all_in flat.new ≡ all_in flat.old ++ declaration_view flat.old.scopes declaration.entry ∷ []) }
{
    flat.declarations.push(declaration)?;
    Ok(())
}

// A declaration that is no module.
fn add<'a>(
    flat: &mut Flat<'a>,
    scope: usize,
    identifier: &'a Identifier,
    what: What<'a>,
) -> Result<(), NoMemory>
    requires scope { scope < length flat.old.scopes }
    requires plain { is_module (what_view what) ≡ false }
    ensures scopes { OnOk result (flat.new.scopes ≡ flat.old.scopes) }
    ensures declarations { OnOk result (all_in flat.new ≡ all_in flat.old ++ declared (path_at flat.old.scopes scope) (what_view what.entry) identifier.now ∷ []) }
{
    push(
        flat,
        Declaration {
            scope,
            name: identifier.name.as_slice(),
            place: identifier.place,
            what,
        },
    )
}

fn add_enumerators<'a>(
    flat: &mut Flat<'a>,
    scope: usize,
    names: &'a [Identifier],
) -> Result<(), NoMemory>
    requires { scope < length flat.old.scopes }
    ensures scopes { OnOk result (flat.new.scopes ≡ flat.old.scopes) }
    ensures declarations { OnOk result (all_in flat.new ≡ all_in flat.old ++ map (declared (path_at flat.old.scopes scope) IsEnumerator) names.now) }
{
    for name in names {
        add(flat, scope, name, What::Enumerator)?;
    }
    Ok(())
}

fn add_enumeration<'a>(
    flat: &mut Flat<'a>,
    scope: usize,
    enumeration: &'a Enumeration,
) -> Result<(), NoMemory>
    requires { scope < length flat.old.scopes }
    ensures scopes { OnOk result (flat.new.scopes ≡ flat.old.scopes) }
    ensures declarations { OnOk result (all_in flat.new ≡ all_in flat.old ++ declared_by (path_at flat.old.scopes scope) (EnumerationDefinition (views.enumeration_view enumeration.now))) }
{
    let names = &enumeration.enumerators;
    add(flat, scope, &enumeration.name, What::Enumeration(names))?;
    add(flat, scope, &names.first, What::Enumerator)?;
    add_enumerators(flat, scope, &names.others)?;
    Ok(())
}

// The declarators of a typedef behind the first.
fn add_aliases<'a>(
    flat: &mut Flat<'a>,
    scope: usize,
    spec: &'a TypeSpec,
    others: &'a [Declarator],
) -> Result<(), NoMemory>
    requires { scope < length flat.old.scopes }
    ensures scopes { OnOk result (flat.new.scopes ≡ flat.old.scopes) }
    ensures declarations { OnOk result (all_in flat.new ≡ all_in flat.old ++ aliases (path_at flat.old.scopes scope) (views.type_spec_view spec.now) 1 (map views.declarator_view others.now)) }
{
    for i in 0..others.len() {
        add_alias(flat, scope, i + 1, spec, &others[i])?;
    }
    Ok(())
}

fn add_alias<'a>(
    flat: &mut Flat<'a>,
    scope: usize,
    before: usize,
    spec: &'a TypeSpec,
    declarator: &'a Declarator,
) -> Result<(), NoMemory>
    requires { scope < length flat.old.scopes }
    ensures scopes { OnOk result (flat.new.scopes ≡ flat.old.scopes) }
    ensures declarations { OnOk result (all_in flat.new ≡ all_in flat.old ++ aliases (path_at flat.old.scopes scope) (views.type_spec_view spec.now) before (views.declarator_view declarator.now ∷ [])) }
{
    let what = What::Alias(before, spec, &declarator.dimensions);
    add(flat, scope, &declarator.name, what)
}

fn add_type_definition<'a>(
    flat: &mut Flat<'a>,
    scope: usize,
    definition: &'a TypeDefinition,
) -> Result<(), NoMemory>
    requires { scope < length flat.old.scopes }
    ensures scopes { OnOk result (flat.new.scopes ≡ flat.old.scopes) }
    ensures declarations { OnOk result (all_in flat.new ≡ all_in flat.old ++ declared_by (path_at flat.old.scopes scope) (TypeDefinitionDefinition (views.type_definition_view definition.now))) }
{
    let declarators = &definition.declarators;
    let spec = &definition.spec;
    add_alias(flat, scope, 0, spec, &declarators.first)?;
    add_aliases(flat, scope, spec, &declarators.others)?;
    Ok(())
}

// The declaration of a definition that has one.
fn single<'a>(definition: &'a Definition) -> Option<(&'a Identifier, What<'a>)>
    ensures plain { IfSome result (λ s. is_module (what_view s.1) ≡ false) }
    ensures single { (path : Path) → option_to_list (option_map (λ s. declared path (what_view s.1) s.0.now) result) ≡ single path (views.definition_view definition.now) }
{
    match definition {
        Definition::Constant(constant) => Some((&constant.name, What::Constant(constant))),
        Definition::Struct(structure) => Some((&structure.name, What::Struct(structure))),
        Definition::AbstractType(of) => Some((&of.name, What::AbstractType(&of.body))),
        Definition::StorageType(of) => Some((&of.name, What::ConcreteType(&of.body))),
        Definition::AbstractHome(home) => Some((&home.name, What::AbstractHome(&home.body))),
        Definition::StorageHome(home) => Some((&home.name, What::ConcreteHome(home))),
        Definition::Catalog(catalog) => Some((&catalog.name, What::Catalog(&catalog.provisions))),
        _ => None,
    }
}

fn add_single<'a>(
    flat: &mut Flat<'a>,
    scope: usize,
    definition: &'a Definition,
) -> Result<(), NoMemory>
    requires { scope < length flat.old.scopes }
    ensures scopes { OnOk result (flat.new.scopes ≡ flat.old.scopes) }
    ensures declarations { OnOk result (all_in flat.new ≡ all_in flat.old ++ single (path_at flat.old.scopes scope) (views.definition_view definition.now)) }
{
    match single(definition) {
        Some((name, what)) => add(flat, scope, name, what),
        None => Ok(()),
    }
}

// A definition that is no module.
fn add_plain<'a>(
    flat: &mut Flat<'a>,
    scope: usize,
    definition: &'a Definition,
) -> Result<(), NoMemory>
    requires { scope < length flat.old.scopes }
    ensures scopes { OnOk result (flat.new.scopes ≡ flat.old.scopes) }
    ensures declarations { OnOk result (all_in flat.new ≡ all_in flat.old ++ plain (path_at flat.old.scopes scope) (views.definition_view definition.now)) }
{
    match definition {
        Definition::TypeDefinition(definition) => add_type_definition(flat, scope, definition),
        Definition::Enumeration(enumeration) => add_enumeration(flat, scope, enumeration),
        _ => add_single(flat, scope, definition),
    }
}

// A module. Answers the scope inside it.
fn open<'a>(
    flat: &mut Flat<'a>,
    scope: usize,
    identifier: &'a Identifier,
) -> Result<usize, NoMemory>
    requires { scope < length flat.old.scopes }
    ensures grows { OnOk result (Grows flat.old.scopes flat.new.scopes) }
    ensures inside { IfOk result (λ s. s < length flat.new.scopes) }
    ensures path { IfOk result (λ s. path_at flat.new.scopes s ≡ identifier.now.name ∷ path_at flat.old.scopes scope) }
    ensures declarations { OnOk result (all_in flat.new ≡ all_in flat.old ++ declared (path_at flat.old.scopes scope) IsModule identifier.now ∷ []) }
{
    let name = identifier.name.as_slice();
    let inner = flat.scopes.open(scope, name)?;
    push(
        flat,
        Declaration {
            scope,
            name,
            place: identifier.place,
            what: What::Module(inner),
        },
    )?;
    Ok(inner)
}

#[cycle(walk)]
fn add_module<'a>(flat: &mut Flat<'a>, scope: usize, module: &'a Module) -> Result<(), NoMemory>
    requires { scope < length flat.old.scopes }
    ensures grows { OnOk result (Grows flat.old.scopes flat.new.scopes) }
    ensures declarations { OnOk result (all_in flat.new ≡ all_in flat.old ++ declared_by (path_at flat.old.scopes scope) (views.module_view «module».now)) }
{
    let inner = open(flat, scope, &module.name)?;
    add_definitions(flat, inner, &module.definitions)?;
    Ok(())
}

#[cycle(walk)]
fn add_definition<'a>(
    flat: &mut Flat<'a>,
    scope: usize,
    definition: &'a Definition,
) -> Result<(), NoMemory>
    requires { scope < length flat.old.scopes }
    ensures grows { OnOk result (Grows flat.old.scopes flat.new.scopes) }
    ensures declarations { OnOk result (all_in flat.new ≡ all_in flat.old ++ declared_by (path_at flat.old.scopes scope) (views.definition_view definition.now)) }
{
    match definition {
        Definition::Module(module) => add_module(flat, scope, module),
        _ => add_plain(flat, scope, definition),
    }
}

#[cycle(walk)]
fn add_definitions<'a>(
    flat: &mut Flat<'a>,
    scope: usize,
    definitions: &'a [Definition],
) -> Result<(), NoMemory>
    requires { scope < length flat.old.scopes }
    ensures grows { OnOk result (Grows flat.old.scopes flat.new.scopes) }
    ensures declarations { OnOk result (all_in flat.new ≡ all_in flat.old ++ declarations (path_at flat.old.scopes scope) (views.definitions_of (map views.definition_view definitions.now))) }
{
    for definition in definitions {
        add_definition(flat, scope, definition)?;
    }
    Ok(())
}

/// All declarations of a tree.
pub(crate) fn flatten<'a>(alloc: Global, tree: &'a Tree) -> Result<Flat<'a>, NoMemory>
    ensures { IfOk result (λ flat. all_in flat ≡ all_declarations (views.tree_view tree.now)) }
{
    let mut flat = Flat {
        scopes: Scopes::new(alloc),
        declarations: Vec::new(alloc),
    };
    add_definitions(&mut flat, 0, &tree.definitions)?;
    Ok(flat)
}
