// Definitions.
#![tactic(auto, using(crate::proofs::Printed::printed_append))]

ghost use Rattle.std.specs.Prelude.{◌≡◌, OnOk, map};
ghost use Rattle.part_readers.specs.Sentences.{joined};
ghost use Rattle.psdl_syntax.specs.Grammar as grammar;
ghost use Rattle.psdl_syntax.specs.Printing.{printed};
ghost use Rattle.psdl_tree.specs.Views as views;

use super::expressions::print_expression;
use super::names::{print_identifiers, print_name};
use super::printer::Printer;
use super::stores::{
    print_abstract_home, print_abstract_type, print_catalog, print_storage_home, print_storage_type,
};
use super::types::{
    print_declarators, print_field, print_fields, print_integer_type, print_type_spec,
};
use psdl_tokens::{Keyword, Mark};
use psdl_tree::{Constant, ConstantType, Definition, Enumeration, Module, Struct, TypeDefinition};
use pss_base::NoMemory;

fn print_constant_type(printer: &mut Printer, constant_type: &ConstantType) -> Result<(), NoMemory>
    ensures { OnOk result (printer.new ≡ printed printer.old (grammar.constant_type (views.constant_type_view constant_type.now))) }
{
    match constant_type {
        ConstantType::Integer(integer) => print_integer_type(printer, *integer),
        ConstantType::Octet => printer.word(Keyword::Octet),
        ConstantType::String => printer.word(Keyword::String),
        ConstantType::Name(name) => print_name(printer, name),
    }
}

fn print_constant(printer: &mut Printer, constant: &Constant) -> Result<(), NoMemory>
    ensures { OnOk result (printer.new ≡ printed printer.old (grammar.constant (views.constant_view constant.now))) }
{
    printer.word(Keyword::Const)?;
    print_constant_type(printer, &constant.constant_type)?;
    printer.identifier(&constant.name)?;
    printer.mark(Mark::Equals)?;
    print_expression(printer, &constant.value)
}

fn print_type_definition(printer: &mut Printer, definition: &TypeDefinition) -> Result<(), NoMemory>
    ensures { OnOk result (printer.new ≡ printed printer.old (grammar.type_definition (views.type_definition_view definition.now))) }
{
    printer.word(Keyword::Typedef)?;
    print_type_spec(printer, &definition.spec)?;
    print_declarators(printer, &definition.declarators)
}

fn print_struct(printer: &mut Printer, structure: &Struct) -> Result<(), NoMemory>
    ensures { OnOk result (printer.new ≡ printed printer.old (grammar.struct (views.struct_view structure.now))) }
{
    printer.word(Keyword::Struct)?;
    printer.identifier(&structure.name)?;
    printer.mark(Mark::LeftBrace)?;
    print_field(printer, &structure.first)?;
    print_fields(printer, &structure.others)?;
    printer.mark(Mark::RightBrace)
}

fn print_enumeration(printer: &mut Printer, enumeration: &Enumeration) -> Result<(), NoMemory>
    ensures { OnOk result (printer.new ≡ printed printer.old (grammar.enumeration (views.enumeration_view enumeration.now))) }
{
    printer.word(Keyword::Enum)?;
    printer.identifier(&enumeration.name)?;
    printer.mark(Mark::LeftBrace)?;
    print_identifiers(printer, &enumeration.enumerators)?;
    printer.mark(Mark::RightBrace)
}

#[cycle(print_definition)]
fn print_module(printer: &mut Printer, module: &Module) -> Result<(), NoMemory>
    ensures { OnOk result (printer.new ≡ printed printer.old (grammar.definition (views.module_view «module».now))) }
{
    printer.word(Keyword::Module)?;
    printer.identifier(&module.name)?;
    printer.mark(Mark::LeftBrace)?;
    print_definitions(printer, &module.definitions)?;
    printer.mark(Mark::RightBrace)?;
    printer.mark(Mark::Semicolon)
}

#[cycle(print_definition)]
fn print_definition(printer: &mut Printer, definition: &Definition) -> Result<(), NoMemory>
    ensures { OnOk result (printer.new ≡ printed printer.old (grammar.definition (views.definition_view definition.now))) }
{
    match definition {
        Definition::Module(module) => print_module(printer, module),
        Definition::Constant(constant) => {
            print_constant(printer, constant)?;
            printer.mark(Mark::Semicolon)
        }
        Definition::TypeDefinition(definition) => {
            print_type_definition(printer, definition)?;
            printer.mark(Mark::Semicolon)
        }
        Definition::Struct(structure) => {
            print_struct(printer, structure)?;
            printer.mark(Mark::Semicolon)
        }
        Definition::Enumeration(enumeration) => {
            print_enumeration(printer, enumeration)?;
            printer.mark(Mark::Semicolon)
        }
        Definition::AbstractType(storage_type) => {
            print_abstract_type(printer, storage_type)?;
            printer.mark(Mark::Semicolon)
        }
        Definition::StorageType(storage_type) => {
            print_storage_type(printer, storage_type)?;
            printer.mark(Mark::Semicolon)
        }
        Definition::AbstractHome(home) => {
            print_abstract_home(printer, home)?;
            printer.mark(Mark::Semicolon)
        }
        Definition::StorageHome(home) => {
            print_storage_home(printer, home)?;
            printer.mark(Mark::Semicolon)
        }
        Definition::Catalog(catalog) => {
            print_catalog(printer, catalog)?;
            printer.mark(Mark::Semicolon)
        }
    }
}

/// Adds definitions, one behind the other.
#[cycle(print_definition)]
pub(super) fn print_definitions(
    printer: &mut Printer,
    definitions: &[Definition],
) -> Result<(), NoMemory>
    ensures { OnOk result (printer.new ≡ printed printer.old (joined grammar.definition (map views.definition_view definitions.now))) }
{
    for definition in definitions {
        print_definition(printer, definition)?;
    }
    Ok(())
}
