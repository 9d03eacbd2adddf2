// Members of storage types and storage homes.
#![tactic(auto, using(crate::proofs::Printed::printed_append))]

ghost use Rattle.std.specs.Prelude.{◌≡◌, OnOk, map, option_map};
ghost use Rattle.part_readers.specs.Sentences.{maybe};
ghost use Rattle.psdl_syntax.specs.Grammar as grammar;
ghost use Rattle.psdl_syntax.specs.Printing.{printed};
ghost use Rattle.psdl_tree.specs.Views as views;

use super::names::print_identifiers;
use super::printer::Printer;
use super::types::print_state_type;
use psdl_tokens::{Keyword, Mark};
use psdl_tree::{
    Direction, Factory, Identifiers, Key, KeyMembers, Operation, OperationResult, Parameter,
    Parameters, State,
};
use pss_base::NoMemory;

fn print_readonly(printer: &mut Printer, readonly: bool) -> Result<(), NoMemory>
    ensures { OnOk result (printer.new ≡ printed printer.old (grammar.readonly readonly)) }
{
    if readonly {
        return printer.word(Keyword::ReadOnly);
    }
    Ok(())
}

/// Adds a state member.
pub(super) fn print_state(printer: &mut Printer, state: &State) -> Result<(), NoMemory>
    ensures { OnOk result (printer.new ≡ printed printer.old (grammar.state (views.state_view state.now))) }
{
    print_readonly(printer, state.readonly)?;
    printer.word(Keyword::State)?;
    print_state_type(printer, &state.state_type)?;
    print_identifiers(printer, &state.names)?;
    printer.mark(Mark::Semicolon)
}

fn direction_keyword(direction: Direction) -> Keyword
    ensures { result ≡ grammar.direction_keyword direction }
{
    match direction {
        Direction::In => Keyword::In,
        Direction::Out => Keyword::Out,
        Direction::InOut => Keyword::InOut,
    }
}

fn print_parameter(printer: &mut Printer, parameter: &Parameter) -> Result<(), NoMemory>
    ensures { OnOk result (printer.new ≡ printed printer.old (grammar.parameter (views.parameter_view parameter.now))) }
{
    printer.word(direction_keyword(parameter.direction))?;
    print_state_type(printer, &parameter.parameter_type)?;
    printer.identifier(&parameter.name)
}

fn print_more_parameters(printer: &mut Printer, parameters: &[Parameter]) -> Result<(), NoMemory>
    ensures { OnOk result (printer.new ≡ printed printer.old (grammar.after_commas grammar.parameter (map views.parameter_view parameters.now))) }
{
    for parameter in parameters {
        printer.mark(Mark::Comma)?;
        print_parameter(printer, parameter)?;
    }
    Ok(())
}

fn print_parameters(printer: &mut Printer, parameters: &Option<Parameters>) -> Result<(), NoMemory>
    ensures { OnOk result (printer.new ≡ printed printer.old (maybe grammar.parameters (option_map views.parameters_view parameters.now))) }
{
    match parameters {
        Some(parameters) => {
            print_parameter(printer, &parameters.first)?;
            print_more_parameters(printer, &parameters.others)
        }
        None => Ok(()),
    }
}

fn print_operation_result(printer: &mut Printer, returned: &OperationResult) -> Result<(), NoMemory>
    ensures { OnOk result (printer.new ≡ printed printer.old (grammar.operation_result (views.operation_result_view returned.now))) }
{
    match returned {
        OperationResult::Void => printer.word(Keyword::Void),
        OperationResult::State(state_type) => print_state_type(printer, state_type),
    }
}

/// Adds an operation.
pub(super) fn print_operation(printer: &mut Printer, operation: &Operation) -> Result<(), NoMemory>
    ensures { OnOk result (printer.new ≡ printed printer.old (grammar.operation (views.operation_view operation.now))) }
{
    print_operation_result(printer, &operation.returned)?;
    printer.identifier(&operation.name)?;
    printer.mark(Mark::LeftParen)?;
    print_parameters(printer, &operation.parameters)?;
    printer.mark(Mark::RightParen)?;
    printer.mark(Mark::Semicolon)
}

fn print_key_members(printer: &mut Printer, members: &Option<KeyMembers>) -> Result<(), NoMemory>
    ensures { OnOk result (printer.new ≡ printed printer.old (maybe grammar.key_members (option_map views.key_members_view members.now))) }
{
    match members {
        Some(members) => {
            printer.mark(Mark::LeftParen)?;
            print_identifiers(printer, &members.names)?;
            printer.mark(Mark::RightParen)
        }
        None => Ok(()),
    }
}

/// Adds a key.
pub(super) fn print_key(printer: &mut Printer, key: &Key) -> Result<(), NoMemory>
    ensures { OnOk result (printer.new ≡ printed printer.old (grammar.key (views.key_view key.now))) }
{
    printer.word(Keyword::Key)?;
    printer.identifier(&key.name)?;
    print_key_members(printer, &key.members)?;
    printer.mark(Mark::Semicolon)
}

fn print_factory_members(
    printer: &mut Printer,
    members: &Option<Identifiers>,
) -> Result<(), NoMemory>
    ensures { OnOk result (printer.new ≡ printed printer.old (maybe grammar.identifiers (option_map views.identifiers_view members.now))) }
{
    match members {
        Some(members) => print_identifiers(printer, members),
        None => Ok(()),
    }
}

/// Adds a factory.
pub(super) fn print_factory(printer: &mut Printer, factory: &Factory) -> Result<(), NoMemory>
    ensures { OnOk result (printer.new ≡ printed printer.old (grammar.factory (views.factory_view factory.now))) }
{
    printer.word(Keyword::Factory)?;
    printer.identifier(&factory.name)?;
    printer.mark(Mark::LeftParen)?;
    print_factory_members(printer, &factory.members)?;
    printer.mark(Mark::RightParen)?;
    printer.mark(Mark::Semicolon)
}
