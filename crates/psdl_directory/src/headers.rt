// What the names in the headers of declarations mean, each looked up once.
ghost use Rattle.std.specs.Prelude.{◌≡◌, ◌<◌, ◌+◌, length, map, option_map, Some, IfOk};
ghost use Rattle.std.specs.Option.{option_to_list};
ghost use Rattle.psdl_tree.specs.Views.{name_view, names_view, provision_view};
ghost use Rattle.psdl_directory.specs.Directories.{all_of};
ghost use Rattle.psdl_directory.specs.Headers.{used, header, headers};
ghost use Rattle.psdl_directory.specs.Lookup.{at};
ghost use Rattle.psdl_directory.specs.inner.Nodes.{what_view};
ghost use Rattle.psdl_directory.specs.Parts as parts;

use crate::declaration::What;
use crate::directory::Directory;
use crate::number::DeclarationNo;
use crate::uses::{Use, resolve};
use psdl_tree::{Name, Names, Provision};
use pss_base::NoMemory;
use std::alloc::Global;
use std::marker::Model;

/// The names in the header of a declaration.
#[derive(Drop)]
pub struct Header {
    bases: Vec<Use>,
    implemented: Vec<Use>,
    managed: Option<Use>,
    provided: Vec<Use>,
}

impl Model for Header {
    ghost use Rattle.psdl_directory.specs.Headers.{Header};

    ghost Value = { Header };

    ghost view = { λ h. record { bases = h.bases.items; implemented = h.implemented.items; managed = h.managed; provided = h.provided.items } };
}

impl Header {
    ghost use Rattle.std.specs.Prelude.{◌≡◌, option_map};

    /// The names behind `:`.
    pub fn bases(&self) -> &[Use]
        ensures { result.now ≡ self.now.bases }
    {
        &self.bases
    }

    /// The names behind `implements`.
    pub fn implemented(&self) -> &[Use]
        ensures { result.now ≡ self.now.implemented }
    {
        &self.implemented
    }

    /// The name behind `of`.
    pub fn managed(&self) -> Option<&Use>
        ensures { option_map (λ u. u.now) result ≡ self.now.managed }
    {
        self.managed.as_ref()
    }

    /// The homes that a catalog provides.
    pub fn provided(&self) -> &[Use]
        ensures { result.now ≡ self.now.provided }
    {
        &self.provided
    }
}

fn of_all(
    alloc: Global,
    directory: &Directory<'_>,
    number: DeclarationNo,
    names: &Names,
) -> Result<Vec<Use>, NoMemory>
    requires { number < length (all_of directory.now) }
    ensures { IfOk result (λ v. v.items ≡ map (used (all_of directory.now) (number + 1) number) (parts.all_names (Some (names_view names.now)))) }
{
    let limit = directory.limit_at(number);
    let mut uses = Vec::new(alloc);
    uses.push(resolve(alloc, directory, limit, number, &names.first)?)?;
    for name in &names.others {
        uses.push(resolve(alloc, directory, limit, number, name)?)?;
    }
    Ok(uses)
}

fn of_names(
    alloc: Global,
    directory: &Directory<'_>,
    number: DeclarationNo,
    names: &Option<Names>,
) -> Result<Vec<Use>, NoMemory>
    requires { number < length (all_of directory.now) }
    ensures { IfOk result (λ v. v.items ≡ map (used (all_of directory.now) (number + 1) number) (parts.all_names (option_map names_view names.now))) }
{
    match names {
        Some(names) => of_all(alloc, directory, number, names),
        None => Ok(Vec::new(alloc)),
    }
}

fn of_name(
    alloc: Global,
    directory: &Directory<'_>,
    number: DeclarationNo,
    name: &Option<Name>,
) -> Result<Vec<Use>, NoMemory>
    requires { number < length (all_of directory.now) }
    ensures { IfOk result (λ v. v.items ≡ map (used (all_of directory.now) (number + 1) number) (option_to_list (option_map name_view name.now))) }
{
    let limit = directory.limit_at(number);
    let mut uses = Vec::new(alloc);
    if let Some(name) = name {
        uses.push(resolve(alloc, directory, limit, number, name)?)?;
    }
    Ok(uses)
}

fn bases(
    alloc: Global,
    directory: &Directory<'_>,
    number: DeclarationNo,
) -> Result<Vec<Use>, NoMemory>
    requires { number < length (all_of directory.now) }
    ensures { IfOk result (λ v. v.items ≡ map (used (all_of directory.now) (number + 1) number) (parts.bases (at (all_of directory.now) number).what)) }
{
    match directory.what(number) {
        What::AbstractType(Some(body)) => of_names(alloc, directory, number, &body.bases),
        What::ConcreteType(Some(body)) => of_name(alloc, directory, number, &body.base),
        What::AbstractHome(Some(body)) => of_names(alloc, directory, number, &body.bases),
        What::ConcreteHome(home) => of_name(alloc, directory, number, &home.base),
        _ => Ok(Vec::new(alloc)),
    }
}

fn implemented(
    alloc: Global,
    directory: &Directory<'_>,
    number: DeclarationNo,
) -> Result<Vec<Use>, NoMemory>
    requires { number < length (all_of directory.now) }
    ensures { IfOk result (λ v. v.items ≡ map (used (all_of directory.now) (number + 1) number) (parts.implemented (at (all_of directory.now) number).what)) }
{
    match directory.what(number) {
        What::ConcreteType(Some(body)) => of_names(alloc, directory, number, &body.implements),
        What::ConcreteHome(home) => of_names(alloc, directory, number, &home.implements),
        _ => Ok(Vec::new(alloc)),
    }
}

fn managed_name<'a>(what: What<'a>) -> Option<&'a Name>
    ensures { option_map (λ n. name_view n.now) result ≡ parts.managed (what_view what.entry) }
{
    match what {
        What::AbstractHome(Some(body)) => Some(&body.managed),
        What::ConcreteHome(home) => Some(&home.managed),
        _ => None,
    }
}

fn managed(
    alloc: Global,
    directory: &Directory<'_>,
    number: DeclarationNo,
) -> Result<Option<Use>, NoMemory>
    requires { number < length (all_of directory.now) }
    ensures { IfOk result (λ o. o ≡ option_map (used (all_of directory.now) (number + 1) number) (parts.managed (at (all_of directory.now) number).what)) }
{
    let limit = directory.limit_at(number);
    match managed_name(directory.what(number)) {
        Some(name) => {
            let used = resolve(alloc, directory, limit, number, name)?;
            Ok(Some(used))
        }
        None => Ok(None),
    }
}

fn of_provisions(
    alloc: Global,
    directory: &Directory<'_>,
    number: DeclarationNo,
    provisions: &[Provision],
) -> Result<Vec<Use>, NoMemory>
    requires { number < length (all_of directory.now) }
    ensures { IfOk result (λ v. v.items ≡ map (λ p. used (all_of directory.now) (number + 1) number p.home) (map provision_view provisions.now)) }
{
    let limit = directory.limit_at(number);
    let mut uses = Vec::new(alloc);
    for provision in provisions {
        uses.push(resolve(alloc, directory, limit, number, &provision.home)?)?;
    }
    Ok(uses)
}

fn provided(
    alloc: Global,
    directory: &Directory<'_>,
    number: DeclarationNo,
) -> Result<Vec<Use>, NoMemory>
    requires { number < length (all_of directory.now) }
    ensures { IfOk result (λ v. v.items ≡ map (λ p. used (all_of directory.now) (number + 1) number p.home) (parts.provided (at (all_of directory.now) number).what)) }
{
    match directory.what(number) {
        What::Catalog(provisions) => of_provisions(alloc, directory, number, provisions),
        _ => Ok(Vec::new(alloc)),
    }
}

fn header_of(
    alloc: Global,
    directory: &Directory<'_>,
    number: DeclarationNo,
) -> Result<Header, NoMemory>
    requires { number < length (all_of directory.now) }
    ensures { IfOk result (λ h. h ≡ header (all_of directory.now) number) }
{
    let managed = managed(alloc, directory, number)?;
    let bases = bases(alloc, directory, number)?;
    let implemented = implemented(alloc, directory, number)?;
    let provided = provided(alloc, directory, number)?;
    Ok(Header {
        bases,
        implemented,
        managed,
        provided,
    })
}

/// The headers of all declarations, in their order. `NoMemory`: there was no room for them.
pub fn headers_of(alloc: Global, directory: &Directory<'_>) -> Result<Vec<Header>, NoMemory>
    ensures { IfOk result (λ v. v.items ≡ headers (all_of directory.now)) }
{
    let mut headers = Vec::new(alloc);
    for index in 0..directory.len() {
        let header = header_of(alloc, directory, DeclarationNo::new(index))?;
        headers.push(header)?;
    }
    Ok(headers)
}
