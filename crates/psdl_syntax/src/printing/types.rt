// Types and declarators.
#![tactic(auto, using(crate::proofs::Printed::printed_append))]

ghost use Rattle.std.specs.Prelude.{◌≡◌, OnOk, map, option_map};
ghost use Rattle.part_readers.specs.Sentences.{joined, maybe};
ghost use Rattle.psdl_syntax.specs.Grammar as grammar;
ghost use Rattle.psdl_syntax.specs.Printing.{printed};
ghost use Rattle.psdl_tree.specs.Views as views;
ghost use Rattle.psdl_tokens.specs.declared.token.Mark.TheVariants as marks;

use super::expressions::print_expression;
use super::names::print_name;
use super::printer::Printer;
use psdl_tokens::{Keyword, Mark};
use psdl_tree::{
    Declarator, Declarators, Expression, Field, IntegerSize, IntegerType, PlainType, StateType,
    TypeSpec,
};
use pss_base::NoMemory;

fn print_unsigned(printer: &mut Printer, unsigned: bool) -> Result<(), NoMemory>
    ensures { OnOk result (printer.new ≡ printed printer.old (grammar.unsigned unsigned)) }
{
    if unsigned {
        return printer.word(Keyword::Unsigned);
    }
    Ok(())
}

fn print_integer_size(printer: &mut Printer, size: IntegerSize) -> Result<(), NoMemory>
    ensures { OnOk result (printer.new ≡ printed printer.old (grammar.integer_size size)) }
{
    match size {
        IntegerSize::Short => printer.word(Keyword::Short),
        IntegerSize::Long => printer.word(Keyword::Long),
        IntegerSize::LongLong => {
            printer.word(Keyword::Long)?;
            printer.word(Keyword::Long)
        }
    }
}

/// Adds a type of integers.
pub(super) fn print_integer_type(
    printer: &mut Printer,
    integer: IntegerType,
) -> Result<(), NoMemory>
    ensures { OnOk result (printer.new ≡ printed printer.old (grammar.integer integer)) }
{
    print_unsigned(printer, integer.unsigned)?;
    print_integer_size(printer, integer.size)
}

fn print_string_bound(printer: &mut Printer, bound: &Option<Expression>) -> Result<(), NoMemory>
    ensures { OnOk result (printer.new ≡ printed printer.old (maybe grammar.string_bound (option_map views.expression_view bound.now))) }
{
    match bound {
        Some(bound) => {
            printer.mark(Mark::Less)?;
            print_expression(printer, bound)?;
            printer.mark(Mark::Greater)
        }
        None => Ok(()),
    }
}

fn print_plain_type(printer: &mut Printer, plain: &PlainType) -> Result<(), NoMemory>
    ensures { OnOk result (printer.new ≡ printed printer.old (grammar.plain_type (views.plain_type_view plain.now))) }
{
    match plain {
        PlainType::Integer(integer) => print_integer_type(printer, *integer),
        PlainType::Char => printer.word(Keyword::Char),
        PlainType::Boolean => printer.word(Keyword::Boolean),
        PlainType::Octet => printer.word(Keyword::Octet),
        PlainType::String(bound) => {
            printer.word(Keyword::String)?;
            print_string_bound(printer, bound)
        }
        PlainType::Name(name) => print_name(printer, name),
    }
}

fn print_sequence_bound(printer: &mut Printer, bound: &Option<Expression>) -> Result<(), NoMemory>
    ensures { OnOk result (printer.new ≡ printed printer.old (maybe (grammar.behind (grammar.sign marks.Comma) grammar.expression) (option_map views.expression_view bound.now))) }
{
    match bound {
        Some(bound) => {
            printer.mark(Mark::Comma)?;
            print_expression(printer, bound)
        }
        None => Ok(()),
    }
}

/// Adds the type of a typedef or a field.
pub(super) fn print_type_spec(printer: &mut Printer, spec: &TypeSpec) -> Result<(), NoMemory>
    ensures { OnOk result (printer.new ≡ printed printer.old (grammar.type_spec (views.type_spec_view spec.now))) }
{
    match spec {
        TypeSpec::Plain(plain) => print_plain_type(printer, plain),
        TypeSpec::Sequence(item, bound) => {
            printer.word(Keyword::Sequence)?;
            printer.mark(Mark::Less)?;
            print_type_spec(printer, item)?;
            print_sequence_bound(printer, bound)?;
            printer.mark(Mark::Greater)
        }
    }
}

/// Adds the type of a state member.
pub(super) fn print_state_type(
    printer: &mut Printer,
    state_type: &StateType,
) -> Result<(), NoMemory>
    ensures { OnOk result (printer.new ≡ printed printer.old (grammar.state_type (views.state_type_view state_type.now))) }
{
    match state_type {
        StateType::Plain(plain) => print_plain_type(printer, plain),
        StateType::Reference(name) => {
            printer.word(Keyword::Ref)?;
            printer.mark(Mark::Less)?;
            print_name(printer, name)?;
            printer.mark(Mark::Greater)
        }
    }
}

fn print_dimension(printer: &mut Printer, size: &Expression) -> Result<(), NoMemory>
    ensures { OnOk result (printer.new ≡ printed printer.old (grammar.dimension (views.expression_view size.now))) }
{
    printer.mark(Mark::LeftBracket)?;
    print_expression(printer, size)?;
    printer.mark(Mark::RightBracket)
}

fn print_dimensions(printer: &mut Printer, sizes: &[Expression]) -> Result<(), NoMemory>
    ensures { OnOk result (printer.new ≡ printed printer.old (joined grammar.dimension (map views.expression_view sizes.now))) }
{
    for size in sizes {
        print_dimension(printer, size)?;
    }
    Ok(())
}

fn print_declarator(printer: &mut Printer, declarator: &Declarator) -> Result<(), NoMemory>
    ensures { OnOk result (printer.new ≡ printed printer.old (grammar.declarator (views.declarator_view declarator.now))) }
{
    printer.identifier(&declarator.name)?;
    print_dimensions(printer, &declarator.dimensions)
}

fn print_more_declarators(printer: &mut Printer, declarators: &[Declarator]) -> Result<(), NoMemory>
    ensures { OnOk result (printer.new ≡ printed printer.old (grammar.after_commas grammar.declarator (map views.declarator_view declarators.now))) }
{
    for declarator in declarators {
        printer.mark(Mark::Comma)?;
        print_declarator(printer, declarator)?;
    }
    Ok(())
}

/// Adds declarators with commas.
pub(super) fn print_declarators(
    printer: &mut Printer,
    declarators: &Declarators,
) -> Result<(), NoMemory>
    ensures { OnOk result (printer.new ≡ printed printer.old (grammar.declarators (views.declarators_view declarators.now))) }
{
    print_declarator(printer, &declarators.first)?;
    print_more_declarators(printer, &declarators.others)
}

/// Adds a field of a struct.
pub(super) fn print_field(printer: &mut Printer, field: &Field) -> Result<(), NoMemory>
    ensures { OnOk result (printer.new ≡ printed printer.old (grammar.field (views.field_view field.now))) }
{
    print_type_spec(printer, &field.spec)?;
    print_declarators(printer, &field.declarators)?;
    printer.mark(Mark::Semicolon)
}

/// Adds fields of a struct.
pub(super) fn print_fields(printer: &mut Printer, fields: &[Field]) -> Result<(), NoMemory>
    ensures { OnOk result (printer.new ≡ printed printer.old (joined grammar.field (map views.field_view fields.now))) }
{
    for field in fields {
        print_field(printer, field)?;
    }
    Ok(())
}
