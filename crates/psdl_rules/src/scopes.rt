// The scopes inside a declaration, by their identifiers.
ghost use Rattle.std.specs.Prelude.{◌≡◌, ◌++◌, map, IfOk, OnOk};
ghost use Rattle.std.specs.List.{flat_map};
ghost use Rattle.psdl_tree.specs.Views as views;
ghost use Rattle.psdl_directory.specs.Declarations.{all_identifiers};
ghost use Rattle.psdl_directory.specs.inner.Nodes.{what_view};
ghost use Rattle.psdl_directory.specs.Parts as parts;

use psdl_directory::What;
use psdl_tree::{
    AbstractHomeMember, AbstractTypeMember, Declarator, Field, HomeMember, Identifier, Identifiers,
    Operation, Parameter, Parameters, Provision, State, Struct,
};
use pss_base::NoMemory;
use std::alloc::Global;

/// Adds some identifiers.
pub(crate) fn add_each<'a>(
    found: &mut Vec<&'a Identifier>,
    names: &'a [Identifier],
) -> Result<(), NoMemory>
    ensures { OnOk result (map (λ i. i.now) found.new.items ≡ map (λ i. i.now) found.old.items ++ names.now) }
{
    for name in names {
        found.push(name)?;
    }
    Ok(())
}

fn add_identifiers<'a>(
    found: &mut Vec<&'a Identifier>,
    names: &'a Identifiers,
) -> Result<(), NoMemory>
    ensures { OnOk result (map (λ i. i.now) found.new.items ≡ map (λ i. i.now) found.old.items ++ all_identifiers (views.identifiers_view names.now)) }
{
    found.push(&names.first)?;
    add_each(found, &names.others)?;
    Ok(())
}

fn add_declarators<'a>(
    found: &mut Vec<&'a Identifier>,
    declarators: &'a [Declarator],
) -> Result<(), NoMemory>
    ensures { OnOk result (map (λ i. i.now) found.new.items ≡ map (λ i. i.now) found.old.items ++ map (λ d. d.name) (map views.declarator_view declarators.now)) }
{
    for declarator in declarators {
        found.push(&declarator.name)?;
    }
    Ok(())
}

fn add_field<'a>(found: &mut Vec<&'a Identifier>, field: &'a Field) -> Result<(), NoMemory>
    ensures { OnOk result (map (λ i. i.now) found.new.items ≡ map (λ i. i.now) found.old.items ++ parts.field_names (views.field_view field.now)) }
{
    found.push(&field.declarators.first.name)?;
    add_declarators(found, &field.declarators.others)?;
    Ok(())
}

fn add_fields<'a>(found: &mut Vec<&'a Identifier>, fields: &'a [Field]) -> Result<(), NoMemory>
    ensures { OnOk result (map (λ i. i.now) found.new.items ≡ map (λ i. i.now) found.old.items ++ flat_map parts.field_names (map views.field_view fields.now)) }
{
    for field in fields {
        add_field(found, field)?;
    }
    Ok(())
}

fn add_struct<'a>(found: &mut Vec<&'a Identifier>, structure: &'a Struct) -> Result<(), NoMemory>
    ensures { OnOk result (map (λ i. i.now) found.new.items ≡ map (λ i. i.now) found.old.items ++ flat_map parts.field_names (parts.all_fields (views.struct_view structure.now))) }
{
    add_field(found, &structure.first)?;
    add_fields(found, &structure.others)?;
    Ok(())
}

fn add_type_members<'a>(
    found: &mut Vec<&'a Identifier>,
    members: &'a [AbstractTypeMember],
) -> Result<(), NoMemory>
    ensures { OnOk result (map (λ i. i.now) found.new.items ≡ map (λ i. i.now) found.old.items ++ flat_map parts.abstract_type_names (map views.abstract_type_member_view members.now)) }
{
    for member in members {
        match member {
            AbstractTypeMember::State(state) => add_identifiers(found, &state.names)?,
            AbstractTypeMember::Operation(operation) => found.push(&operation.name)?,
        }
    }
    Ok(())
}

fn add_states<'a>(found: &mut Vec<&'a Identifier>, states: &'a [State]) -> Result<(), NoMemory>
    ensures { OnOk result (map (λ i. i.now) found.new.items ≡ map (λ i. i.now) found.old.items ++ flat_map parts.state_names (map views.state_view states.now)) }
{
    for state in states {
        add_identifiers(found, &state.names)?;
    }
    Ok(())
}

fn add_abstract_home_members<'a>(
    found: &mut Vec<&'a Identifier>,
    members: &'a [AbstractHomeMember],
) -> Result<(), NoMemory>
    ensures { OnOk result (map (λ i. i.now) found.new.items ≡ map (λ i. i.now) found.old.items ++ flat_map parts.abstract_home_names (map views.abstract_home_member_view members.now)) }
{
    for member in members {
        let name = match member {
            AbstractHomeMember::Key(key) => &key.name,
            AbstractHomeMember::Factory(factory) => &factory.name,
            AbstractHomeMember::Operation(operation) => &operation.name,
        };
        found.push(name)?;
    }
    Ok(())
}

fn add_home_members<'a>(
    found: &mut Vec<&'a Identifier>,
    members: &'a [HomeMember],
) -> Result<(), NoMemory>
    ensures { OnOk result (map (λ i. i.now) found.new.items ≡ map (λ i. i.now) found.old.items ++ flat_map parts.home_names (map views.home_member_view members.now)) }
{
    for member in members {
        let name = match member {
            HomeMember::Key(key) => &key.name,
            HomeMember::PrimaryKey(key) => &key.name,
            HomeMember::Factory(factory) => &factory.name,
        };
        found.push(name)?;
    }
    Ok(())
}

fn add_provisions<'a>(
    found: &mut Vec<&'a Identifier>,
    provisions: &'a [Provision],
) -> Result<(), NoMemory>
    ensures { OnOk result (map (λ i. i.now) found.new.items ≡ map (λ i. i.now) found.old.items ++ map (λ p. p.name) (map views.provision_view provisions.now)) }
{
    for provision in provisions {
        found.push(&provision.name)?;
    }
    Ok(())
}

/// The identifiers that stand right in a body.
pub(crate) fn body_names<'a>(alloc: Global, what: What<'a>) -> Result<Vec<&'a Identifier>, NoMemory>
    ensures { IfOk result (λ v. map (λ i. i.now) v.items ≡ parts.body_names (what_view what.entry)) }
{
    let mut found = Vec::new(alloc);
    let added = match what {
        What::Struct(structure) => add_struct(&mut found, structure),
        What::AbstractType(Some(body)) => add_type_members(&mut found, &body.members),
        What::ConcreteType(Some(body)) => add_states(&mut found, &body.states),
        What::AbstractHome(Some(body)) => add_abstract_home_members(&mut found, &body.members),
        What::ConcreteHome(home) => add_home_members(&mut found, &home.members),
        What::Catalog(provisions) => add_provisions(&mut found, provisions),
        _ => Ok(()),
    };
    added?;
    Ok(found)
}

fn add_parameters<'a>(
    found: &mut Vec<&'a Identifier>,
    parameters: &'a [Parameter],
) -> Result<(), NoMemory>
    ensures { OnOk result (map (λ i. i.now) found.new.items ≡ map (λ i. i.now) found.old.items ++ map (λ p. p.name) (map views.parameter_view parameters.now)) }
{
    for parameter in parameters {
        found.push(&parameter.name)?;
    }
    Ok(())
}

/// The names of the parameters of an operation.
pub(crate) fn parameter_names<'a>(
    alloc: Global,
    operation: &'a Operation,
) -> Result<Vec<&'a Identifier>, NoMemory>
    ensures { IfOk result (λ v. map (λ i. i.now) v.items ≡ parts.parameter_names (views.operation_view operation.now)) }
{
    let mut found = Vec::new(alloc);
    if let Some(parameters) = &operation.parameters {
        found.push(&parameters.first.name)?;
        add_parameters(&mut found, &parameters.others)?;
    }
    Ok(found)
}
