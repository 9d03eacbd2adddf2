// Names.
#![tactic(auto, using(crate::proofs::Printed::printed_append))]

ghost use Rattle.std.specs.Prelude.{◌≡◌, OnOk, map};
ghost use Rattle.part_readers.specs.Sentences.{joined, maybe};
ghost use Rattle.psdl_syntax.specs.Grammar as grammar;
ghost use Rattle.psdl_syntax.specs.Printing.{printed};
ghost use Rattle.psdl_tree.specs.Views.{name_view, names_view, identifiers_view};
ghost use Rattle.psdl_tokens.specs.declared.token.Mark.TheVariants as marks;

use super::printer::Printer;
use psdl_tokens::Mark;
use psdl_tree::{Identifier, Identifiers, Name, NamePart, Names};
use pss_base::{NoMemory, Place};

fn print_leading(printer: &mut Printer, leading: Option<Place>) -> Result<(), NoMemory>
    ensures { OnOk result (printer.new ≡ printed printer.old (maybe (grammar.placed marks.Scope) leading)) }
{
    match leading {
        Some(_) => printer.mark(Mark::Scope),
        None => Ok(()),
    }
}

fn print_name_parts(printer: &mut Printer, parts: &[NamePart]) -> Result<(), NoMemory>
    ensures { OnOk result (printer.new ≡ printed printer.old (joined grammar.name_part parts.now)) }
{
    for part in parts {
        printer.mark(Mark::Scope)?;
        printer.identifier(&part.name)?;
    }
    Ok(())
}

/// Adds a name.
pub(super) fn print_name(printer: &mut Printer, name: &Name) -> Result<(), NoMemory>
    ensures { OnOk result (printer.new ≡ printed printer.old (grammar.name (name_view name.now))) }
{
    print_leading(printer, name.leading)?;
    printer.identifier(&name.first)?;
    print_name_parts(printer, &name.others)
}

fn print_more_names(printer: &mut Printer, names: &[Name]) -> Result<(), NoMemory>
    ensures { OnOk result (printer.new ≡ printed printer.old (grammar.after_commas grammar.name (map name_view names.now))) }
{
    for name in names {
        printer.mark(Mark::Comma)?;
        print_name(printer, name)?;
    }
    Ok(())
}

/// Adds names with commas.
pub(super) fn print_names(printer: &mut Printer, names: &Names) -> Result<(), NoMemory>
    ensures { OnOk result (printer.new ≡ printed printer.old (grammar.names (names_view names.now))) }
{
    print_name(printer, &names.first)?;
    print_more_names(printer, &names.others)
}

fn print_more_identifiers(printer: &mut Printer, identifiers: &[Identifier]) -> Result<(), NoMemory>
    ensures { OnOk result (printer.new ≡ printed printer.old (grammar.after_commas grammar.identifier identifiers.now)) }
{
    for identifier in identifiers {
        printer.mark(Mark::Comma)?;
        printer.identifier(identifier)?;
    }
    Ok(())
}

/// Adds identifiers with commas.
pub(super) fn print_identifiers(
    printer: &mut Printer,
    identifiers: &Identifiers,
) -> Result<(), NoMemory>
    ensures { OnOk result (printer.new ≡ printed printer.old (grammar.identifiers (identifiers_view identifiers.now))) }
{
    printer.identifier(&identifiers.first)?;
    print_more_identifiers(printer, &identifiers.others)
}
