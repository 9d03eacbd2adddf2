// Storage types, storage homes and catalogs.
#![tactic(auto, using(crate::proofs::Printed::printed_append))]

ghost use Rattle.std.specs.Prelude.{◌≡◌, OnOk, map, option_map};
ghost use Rattle.part_readers.specs.Sentences.{joined, maybe};
ghost use Rattle.psdl_syntax.specs.Grammar as grammar;
ghost use Rattle.psdl_syntax.specs.Printing.{printed};
ghost use Rattle.psdl_tree.specs.Views as views;
ghost use Rattle.psdl_tokens.specs.declared.token.Keyword.TheVariants as keywords;
ghost use Rattle.psdl_tokens.specs.declared.token.Mark.TheVariants as marks;

use super::members::{print_factory, print_key, print_operation, print_state};
use super::names::{print_name, print_names};
use super::printer::Printer;
use psdl_tokens::{Keyword, Mark};
use psdl_tree::{
    AbstractHome, AbstractHomeBody, AbstractHomeMember, AbstractType, AbstractTypeBody,
    AbstractTypeMember, Catalog, HomeMember, Name, Names, Provision, State, StorageHome,
    StorageType, StorageTypeBody,
};
use pss_base::NoMemory;

fn print_base(printer: &mut Printer, base: &Option<Name>) -> Result<(), NoMemory>
    ensures { OnOk result (printer.new ≡ printed printer.old (maybe (grammar.behind (grammar.sign marks.Colon) grammar.name) (option_map views.name_view base.now))) }
{
    match base {
        Some(base) => {
            printer.mark(Mark::Colon)?;
            print_name(printer, base)
        }
        None => Ok(()),
    }
}

fn print_bases(printer: &mut Printer, bases: &Option<Names>) -> Result<(), NoMemory>
    ensures { OnOk result (printer.new ≡ printed printer.old (maybe (grammar.behind (grammar.sign marks.Colon) grammar.names) (option_map views.names_view bases.now))) }
{
    match bases {
        Some(bases) => {
            printer.mark(Mark::Colon)?;
            print_names(printer, bases)
        }
        None => Ok(()),
    }
}

fn print_implements(printer: &mut Printer, names: &Option<Names>) -> Result<(), NoMemory>
    ensures { OnOk result (printer.new ≡ printed printer.old (maybe (grammar.behind (grammar.word keywords.Implements) grammar.names) (option_map views.names_view names.now))) }
{
    match names {
        Some(names) => {
            printer.word(Keyword::Implements)?;
            print_names(printer, names)
        }
        None => Ok(()),
    }
}

fn print_abstract_type_member(
    printer: &mut Printer,
    member: &AbstractTypeMember,
) -> Result<(), NoMemory>
    ensures { OnOk result (printer.new ≡ printed printer.old (grammar.abstract_type_member (views.abstract_type_member_view member.now))) }
{
    match member {
        AbstractTypeMember::State(state) => print_state(printer, state),
        AbstractTypeMember::Operation(operation) => print_operation(printer, operation),
    }
}

fn print_abstract_type_members(
    printer: &mut Printer,
    members: &[AbstractTypeMember],
) -> Result<(), NoMemory>
    ensures { OnOk result (printer.new ≡ printed printer.old (joined grammar.abstract_type_member (map views.abstract_type_member_view members.now))) }
{
    for member in members {
        print_abstract_type_member(printer, member)?;
    }
    Ok(())
}

fn print_abstract_type_body(
    printer: &mut Printer,
    body: &Option<AbstractTypeBody>,
) -> Result<(), NoMemory>
    ensures { OnOk result (printer.new ≡ printed printer.old (maybe grammar.abstract_type_body (option_map views.abstract_type_body_view body.now))) }
{
    match body {
        Some(body) => {
            print_bases(printer, &body.bases)?;
            printer.mark(Mark::LeftBrace)?;
            print_abstract_type_members(printer, &body.members)?;
            printer.mark(Mark::RightBrace)
        }
        None => Ok(()),
    }
}

/// Adds an abstract storage type.
pub(super) fn print_abstract_type(
    printer: &mut Printer,
    storage_type: &AbstractType,
) -> Result<(), NoMemory>
    ensures { OnOk result (printer.new ≡ printed printer.old (grammar.abstract_type (views.abstract_type_view storage_type.now))) }
{
    printer.word(Keyword::Abstract)?;
    printer.word(Keyword::StorageType)?;
    printer.identifier(&storage_type.name)?;
    print_abstract_type_body(printer, &storage_type.body)
}

fn print_states(printer: &mut Printer, states: &[State]) -> Result<(), NoMemory>
    ensures { OnOk result (printer.new ≡ printed printer.old (joined grammar.state (map views.state_view states.now))) }
{
    for state in states {
        print_state(printer, state)?;
    }
    Ok(())
}

fn print_storage_type_body(
    printer: &mut Printer,
    body: &Option<StorageTypeBody>,
) -> Result<(), NoMemory>
    ensures { OnOk result (printer.new ≡ printed printer.old (maybe grammar.storage_type_body (option_map views.storage_type_body_view body.now))) }
{
    match body {
        Some(body) => {
            print_base(printer, &body.base)?;
            print_implements(printer, &body.implements)?;
            printer.mark(Mark::LeftBrace)?;
            print_states(printer, &body.states)?;
            printer.mark(Mark::RightBrace)
        }
        None => Ok(()),
    }
}

/// Adds a storage type.
pub(super) fn print_storage_type(
    printer: &mut Printer,
    storage_type: &StorageType,
) -> Result<(), NoMemory>
    ensures { OnOk result (printer.new ≡ printed printer.old (grammar.storage_type (views.storage_type_view storage_type.now))) }
{
    printer.word(Keyword::StorageType)?;
    printer.identifier(&storage_type.name)?;
    print_storage_type_body(printer, &storage_type.body)
}

fn print_abstract_home_member(
    printer: &mut Printer,
    member: &AbstractHomeMember,
) -> Result<(), NoMemory>
    ensures { OnOk result (printer.new ≡ printed printer.old (grammar.abstract_home_member (views.abstract_home_member_view member.now))) }
{
    match member {
        AbstractHomeMember::Key(key) => print_key(printer, key),
        AbstractHomeMember::Factory(factory) => print_factory(printer, factory),
        AbstractHomeMember::Operation(operation) => print_operation(printer, operation),
    }
}

fn print_abstract_home_members(
    printer: &mut Printer,
    members: &[AbstractHomeMember],
) -> Result<(), NoMemory>
    ensures { OnOk result (printer.new ≡ printed printer.old (joined grammar.abstract_home_member (map views.abstract_home_member_view members.now))) }
{
    for member in members {
        print_abstract_home_member(printer, member)?;
    }
    Ok(())
}

fn print_abstract_home_body(
    printer: &mut Printer,
    body: &Option<AbstractHomeBody>,
) -> Result<(), NoMemory>
    ensures { OnOk result (printer.new ≡ printed printer.old (maybe grammar.abstract_home_body (option_map views.abstract_home_body_view body.now))) }
{
    match body {
        Some(body) => {
            printer.word(Keyword::Of)?;
            print_name(printer, &body.managed)?;
            print_bases(printer, &body.bases)?;
            printer.mark(Mark::LeftBrace)?;
            print_abstract_home_members(printer, &body.members)?;
            printer.mark(Mark::RightBrace)
        }
        None => Ok(()),
    }
}

/// Adds an abstract storage home.
pub(super) fn print_abstract_home(
    printer: &mut Printer,
    home: &AbstractHome,
) -> Result<(), NoMemory>
    ensures { OnOk result (printer.new ≡ printed printer.old (grammar.abstract_home (views.abstract_home_view home.now))) }
{
    printer.word(Keyword::Abstract)?;
    printer.word(Keyword::StorageHome)?;
    printer.identifier(&home.name)?;
    print_abstract_home_body(printer, &home.body)
}

fn print_home_member(printer: &mut Printer, member: &HomeMember) -> Result<(), NoMemory>
    ensures { OnOk result (printer.new ≡ printed printer.old (grammar.home_member (views.home_member_view member.now))) }
{
    match member {
        HomeMember::Key(key) => print_key(printer, key),
        HomeMember::PrimaryKey(key) => {
            printer.word(Keyword::Primary)?;
            print_key(printer, key)
        }
        HomeMember::Factory(factory) => print_factory(printer, factory),
    }
}

fn print_home_members(printer: &mut Printer, members: &[HomeMember]) -> Result<(), NoMemory>
    ensures { OnOk result (printer.new ≡ printed printer.old (joined grammar.home_member (map views.home_member_view members.now))) }
{
    for member in members {
        print_home_member(printer, member)?;
    }
    Ok(())
}

/// Adds a storage home.
pub(super) fn print_storage_home(printer: &mut Printer, home: &StorageHome) -> Result<(), NoMemory>
    ensures { OnOk result (printer.new ≡ printed printer.old (grammar.storage_home (views.storage_home_view home.now))) }
{
    printer.word(Keyword::StorageHome)?;
    printer.identifier(&home.name)?;
    print_base(printer, &home.base)?;
    printer.word(Keyword::Of)?;
    print_name(printer, &home.managed)?;
    print_implements(printer, &home.implements)?;
    printer.mark(Mark::LeftBrace)?;
    print_home_members(printer, &home.members)?;
    printer.mark(Mark::RightBrace)
}

fn print_provision(printer: &mut Printer, provision: &Provision) -> Result<(), NoMemory>
    ensures { OnOk result (printer.new ≡ printed printer.old (grammar.provision (views.provision_view provision.now))) }
{
    printer.word(Keyword::Provides)?;
    print_name(printer, &provision.home)?;
    printer.identifier(&provision.name)?;
    printer.mark(Mark::Semicolon)
}

fn print_provisions(printer: &mut Printer, provisions: &[Provision]) -> Result<(), NoMemory>
    ensures { OnOk result (printer.new ≡ printed printer.old (joined grammar.provision (map views.provision_view provisions.now))) }
{
    for provision in provisions {
        print_provision(printer, provision)?;
    }
    Ok(())
}

/// Adds a catalog.
pub(super) fn print_catalog(printer: &mut Printer, catalog: &Catalog) -> Result<(), NoMemory>
    ensures { OnOk result (printer.new ≡ printed printer.old (grammar.catalog (views.catalog_view catalog.now))) }
{
    printer.word(Keyword::Catalog)?;
    printer.identifier(&catalog.name)?;
    printer.mark(Mark::LeftBrace)?;
    print_provisions(printer, &catalog.provisions)?;
    printer.mark(Mark::RightBrace)
}
