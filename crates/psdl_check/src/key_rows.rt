// The keys in the bodies of homes, with a number for each name and list.
ghost use Rattle.std.specs.Prelude.{◌≡◌, ◌∷◌, IfOk, OnOk};
ghost use Rattle.psdl_directory.specs.Spelled.{Keeps};
ghost use Rattle.psdl_directory.specs.inner.Nodes.{what_view};
ghost use Rattle.psdl_members.specs.Listings.{listed_view, listed_views};
ghost use Rattle.psdl_members.specs.declared.list_kind.ListKind.TheVariants as kinds;
ghost use Rattle.psdl_members.specs.inner.Entries.{AreSpelled};
ghost use Rattle.psdl_members.specs.inner.Listing.{listed_in};
ghost use Rattle.psdl_check.specs.inner.KeyIds.{id_of, KeepsIds, own_views, HaveIds};

use psdl_directory::{DeclarationNo, Directory, Spellings, What};
use psdl_members::{ListKind, ListNumbers, Listed, add_lists, add_number, add_numbers};
use pss_base::NoMemory;
use std::alloc::Global;

/// The numbers of spellings and of lists of them: a key's number is that of its name and its list.
#[derive(Drop)]
pub(crate) struct KeyIds {
    pub spellings: Spellings,
    pub lists: ListNumbers,
}

/// A key in the body of a home, with the number of its name and list.
#[derive(Clone, Copy)]
pub(crate) struct OwnKey<'d> {
    pub listed: Listed<'d>,
    pub id: usize,
}

/// The keys in the bodies of homes, by declaration.
#[derive(Drop)]
pub(crate) struct KeyRows<'d> {
    pub ids: KeyIds,
    rows: Vec<Vec<OwnKey<'d>>>,
}

// The numbers of a key's name and of what its list names.
fn spelled(
    alloc: Global,
    spellings: &mut Spellings,
    listed: &Listed<'_>,
) -> Result<Vec<usize>, NoMemory>
    ensures spelled { IfOk result (λ v. AreSpelled spellings.new v.items ((listed_view listed.now).name ∷ (listed_view listed.now).members)) }
    ensures kept { OnOk result (Keeps spellings.old spellings.new) }
{
    let mut numbers = Vec::new(alloc);
    add_number(alloc, &mut numbers, spellings, listed.name)?;
    add_numbers(alloc, &mut numbers, spellings, listed.first)?;
    add_numbers(alloc, &mut numbers, spellings, listed.others)?;
    Ok(numbers)
}

impl KeyIds {
    ghost use Rattle.std.specs.Prelude.{◌≡◌, ◌<◌, ℕ, Some, IfOk, OnOk};
    ghost use Rattle.psdl_lineage.specs.Descent.{Listed as ListedView};
    ghost use Rattle.psdl_members.specs.Listings.{listed_view};
    ghost use Rattle.psdl_check.specs.inner.KeyIds.{id_of, KeepsIds};

    fn new(alloc: Global) -> KeyIds {
        KeyIds {
            spellings: Spellings::new(alloc),
            lists: ListNumbers::new(alloc),
        }
    }

    /// How many names and lists were noted. Their numbers are less than that.
    pub(crate) fn len(&self) -> usize
        ensures { (l : ListedView) (n : ℕ) → id_of self.now l ≡ Some n → n < result }
    {
        self.lists.len()
    }

    // Notes a name and list. Answers their number.
    fn note(&mut self, alloc: Global, listed: &Listed<'_>) -> Result<usize, NoMemory>
        ensures number { IfOk result (λ n. id_of self.new (listed_view listed.now) ≡ Some n) }
        ensures kept { OnOk result (KeepsIds self.old self.new) }
    {
        let numbers = spelled(alloc, &mut self.spellings, listed)?;
        let number = self.lists.note(numbers)?;
        Ok(number)
    }
}

// Keys with their numbers.
fn with_ids<'d>(
    alloc: Global,
    ids: &mut KeyIds,
    lists: &[Listed<'d>],
) -> Result<Vec<OwnKey<'d>>, NoMemory>
    ensures views { IfOk result (λ v. own_views v.items ≡ listed_views lists.now) }
    ensures ids { IfOk result (λ v. HaveIds ids.new v.items) }
    ensures kept { OnOk result (KeepsIds ids.old ids.new) }
{
    let mut keys = Vec::new(alloc);
    for listed in lists {
        let id = ids.note(alloc, listed)?;
        keys.push(OwnKey {
            listed: *listed,
            id,
        })?;
    }
    Ok(keys)
}

// The keys in a body.
fn row_of<'d>(alloc: Global, ids: &mut KeyIds, what: What<'d>) -> Result<Vec<OwnKey<'d>>, NoMemory>
    ensures views { IfOk result (λ v. own_views v.items ≡ listed_in kinds.Key (what_view what.entry)) }
    ensures ids { IfOk result (λ v. HaveIds ids.new v.items) }
    ensures kept { OnOk result (KeepsIds ids.old ids.new) }
{
    let mut lists = Vec::new(alloc);
    add_lists(&mut lists, ListKind::Key, what)?;
    with_ids(alloc, ids, &lists)
}

impl<'d> KeyRows<'d> {
    ghost use Rattle.std.specs.Prelude.{◌≡◌, [], option_map, IfOk};
    ghost use Rattle.type_layout.specs.Schemas.{given};
    ghost use Rattle.psdl_directory.specs.Directories.{all_of};
    ghost use Rattle.psdl_check.specs.inner.KeyRowed.{row_in, AreRows};

    /// The keys in the bodies of all declarations.
    pub(crate) fn new(alloc: Global, directory: &Directory<'d>) -> Result<KeyRows<'d>, NoMemory>
        ensures { IfOk result (λ r. AreRows (all_of directory.now) r.ids r.rows.items) }
    {
        let mut ids = KeyIds::new(alloc);
        let mut rows = Vec::new(alloc);
        for index in 0..directory.len() {
            let row = row_of(alloc, &mut ids, directory.what(DeclarationNo::new(index)))?;
            rows.push(row)?;
        }
        Ok(KeyRows { ids, rows })
    }

    /// Those of a declaration, where it has a row.
    pub(crate) fn of(&self, declaration: usize) -> Option<&[OwnKey<'d>]>
        ensures { given (option_map (λ r. r.now) result) [] (λ r. r) ≡ row_in self.now.rows.items declaration }
    {
        match self.rows.get(declaration) {
            Some(row) => Some(row.as_slice()),
            None => None,
        }
    }
}
