// What the catalogs of a text provide.
ghost use Rattle.std.specs.Prelude.{◌≡◌, ◌<◌, ◌++◌, ◌∷◌, [], length, map, IfOk, IfSome, OnOk, MatchOption};
ghost use Rattle.std.specs.List.{flat_map, enumerate_from};
ghost use Rattle.std.specs.Option.{option_and_then};
ghost use Rattle.psdl_tree.specs.Views.{provision_view};
ghost use Rattle.psdl_directory.specs.Lookup.{at, defined};
ghost use Rattle.psdl_directory.specs.Parts.{provided as provided_in};
ghost use Rattle.psdl_directory.specs.Directories.{all_of};
ghost use Rattle.psdl_directory.specs.inner.Nodes.{what_view};
ghost use Rattle.psdl_lineage.specs.Descent as descent;
ghost use Rattle.psdl_check.specs.Schemas as schemas;
ghost use Rattle.psdl_check.specs.inner.Modules.{AreModules, IsCatalogAdded, provision_of};
ghost use Rattle.psdl_check.specs.inner.Texts.{text_in};

use crate::modules::{modules_of, scope_of};
use crate::text::Text;
use psdl_directory::{DeclarationNo, Directory, Use, What};
use psdl_tree::Provision as ProvisionNode;
use pss_base::NoMemory;
use std::alloc::Global;
use type_layout::{ProvidedList, Provision, ScopeNo, Scopes};

// The concrete home that provides what a name means.
fn provider_of(text: &Text, meant: Option<DeclarationNo>) -> Option<DeclarationNo>
    requires { IfSome meant (λ home. home < length (text_in text.now)) }
    ensures { result ≡ option_and_then (descent.provider (text_in text.now)) meant }
{
    match meant {
        Some(home) => text.lineage.provider(home),
        None => None,
    }
}

// Puts a catalog behind the scopes.
fn add_scope(
    alloc: Global,
    directory: &Directory<'_>,
    scopes: &mut Scopes,
    catalog: DeclarationNo,
) -> Result<ScopeNo, NoMemory>
    requires { AreModules directory.now scopes.old }
    ensures number { IfOk result (λ number. number.0 ≡ length scopes.old) }
    ensures scopes { OnOk result (scopes.new ≡ scopes.old ++ schemas.scoped_name (at (all_of directory.now) catalog) ∷ []) }
{
    let number = ScopeNo(scopes.len());
    let outer = directory.module_of(catalog);
    scopes.push(scope_of(alloc, outer, directory.name(catalog))?)?;
    Ok(number)
}

// Adds what a catalog provides under one name.
fn add_provided(
    text: &Text,
    list: &mut Vec<Provision>,
    catalog: DeclarationNo,
    number: ScopeNo,
    provision: &ProvisionNode,
    meant: &Use,
) -> Result<(), NoMemory>
    requires { meant.now.defined ≡ defined (text_in text.now) catalog (provision_view provision.now).home }
    ensures { OnOk result (list.new.items ≡ list.old.items ++ provision_of (text_in text.now) number catalog (provision_view provision.now)) }
{
    let Some(home) = provider_of(text, meant.defined) else {
        return Ok(());
    };
    list.push(Provision {
        catalog: number,
        name: provision.name.name.copy()?,
        home: text.home_no(home),
    })?;
    Ok(())
}

// Adds all that a catalog provides.
fn add_provisions(
    text: &Text,
    list: &mut Vec<Provision>,
    catalog: DeclarationNo,
    number: ScopeNo,
    provisions: &[ProvisionNode],
) -> Result<(), NoMemory>
    requires { map provision_view provisions.now ≡ provided_in (at (text_in text.now) catalog).what }
    ensures { OnOk result (list.new.items ≡ list.old.items ++ flat_map (provision_of (text_in text.now) number catalog) (provided_in (at (text_in text.now) catalog).what)) }
{
    let meant = text.provided(catalog);
    for place in 0..provisions.len() {
        add_provided(
            text,
            list,
            catalog,
            number,
            &provisions[place],
            &meant[place],
        )?;
    }
    Ok(())
}

// The provisions, where a catalog is declared.
fn provisions_in<'t>(what: What<'t>) -> Option<&'t [ProvisionNode]>
    ensures { MatchOption result (provided_in (what_view what.entry) ≡ []) (λ provisions. map provision_view provisions.now ≡ provided_in (what_view what.entry)) }
{
    match what {
        What::Catalog(provisions) => Some(provisions),
        _ => None,
    }
}

// Adds a declaration where it is a catalog, and all that it provides.
fn add_catalog(
    alloc: Global,
    text: &Text,
    directory: &Directory<'_>,
    scopes: &mut Scopes,
    list: &mut Vec<Provision>,
    catalog: DeclarationNo,
) -> Result<(), NoMemory>
    requires same { all_of directory.now ≡ text_in text.now }
    requires modules { AreModules directory.now scopes.old }
    ensures { OnOk result (IsCatalogAdded (text_in text.now) catalog scopes.old scopes.new list.old.items list.new.items) }
{
    match provisions_in(directory.what(catalog)) {
        Some(provisions) => {
            let number = add_scope(alloc, directory, scopes, catalog)?;
            add_provisions(text, list, catalog, number, provisions)?;
            Ok(())
        }
        None => Ok(()),
    }
}

/// The homes that all catalogs provide, in the order of the text.
pub(crate) fn provided_homes(alloc: Global, text: &Text) -> Result<ProvidedList, NoMemory>
    ensures { IfOk result (λ provided. provided ≡ flat_map (schemas.provided_homes (text_in text.now)) (enumerate_from 0 (text_in text.now))) }
{
    let directory = text.directory();
    let mut scopes = modules_of(alloc, directory)?;
    let mut list = Vec::new(alloc);
    for index in 0..directory.len() {
        add_catalog(
            alloc,
            text,
            directory,
            &mut scopes,
            &mut list,
            DeclarationNo::new(index),
        )?;
    }
    Ok(ProvidedList::new(scopes, list))
}
