// Which declarations have entries of each name.
ghost use Rattle.std.specs.Prelude.{◌≡◌, ◌<◌, ◌++◌, ◌∷◌, [], ℕ, length, IfOk, OnOk, if◌then◌else◌, ◌==◌};
ghost use Rattle.psdl_members.specs.inner.Below.{AreBelow};
ghost use Rattle.psdl_members.specs.inner.Claims.{AreClaims, HasMore, claims_in};

use crate::columns::columns_of;
use crate::entry::Entry;
use crate::rows::Rows;
use pss_base::NoMemory;
use std::alloc::Global;

/// An entry, and the declaration that has it in its body.
#[derive(Clone, Copy)]
pub(crate) struct Claim {
    pub declaration: usize,
    pub entry: Entry,
}

fn no_claims(alloc: Global, names: usize) -> Result<Vec<Vec<Claim>>, NoMemory>
    ensures sized { IfOk result (λ v. length v.items ≡ names) }
    ensures none { IfOk result (λ v. (n : ℕ) → claims_in v.items n ≡ []) }
{
    let mut claims = Vec::new(alloc);
    for _ in 0..names {
        claims.push(Vec::new(alloc))?;
    }
    Ok(claims)
}

// Puts one last among those of its name.
fn add_claim(claims: &mut Vec<Vec<Claim>>, name: usize, claim: Claim) -> Result<(), NoMemory>
    requires { name < length claims.old.items }
    ensures sized { length claims.new.items ≡ length claims.old.items }
    ensures put { OnOk result ((n : ℕ) → claims_in claims.new.items n ≡ (if name == n then claims_in claims.old.items n ++ claim ∷ [] else claims_in claims.old.items n)) }
{
    claims[name].push(claim)?;
    Ok(())
}

fn add_claims(
    claims: &mut Vec<Vec<Claim>>,
    declaration: usize,
    entries: &[Entry],
) -> Result<(), NoMemory>
    requires { AreBelow (length claims.old.items) entries.now }
    ensures sized { length claims.new.items ≡ length claims.old.items }
    ensures more { OnOk result (HasMore claims.old.items claims.new.items declaration entries.now) }
{
    for entry in entries {
        let claim = Claim {
            declaration,
            entry: *entry,
        };
        add_claim(claims, entry.name, claim)?;
    }
    Ok(())
}

fn add_rows(claims: &mut Vec<Vec<Claim>>, rows: &Rows) -> Result<(), NoMemory>
    requires sized { length claims.old.items ≡ rows.now.names }
    requires none { (n : ℕ) → claims_in claims.old.items n ≡ [] }
    ensures { OnOk result (AreClaims rows.now claims.new.items) }
{
    for index in 0..rows.len() {
        add_claims(claims, index, rows.of(index))?;
    }
    Ok(())
}

// The entries of all declarations, by name.
fn claims_of(alloc: Global, rows: &Rows) -> Result<Vec<Vec<Claim>>, NoMemory>
    ensures { IfOk result (λ v. AreClaims rows.now v.items) }
{
    let mut claims = no_claims(alloc, rows.names)?;
    add_rows(&mut claims, rows)?;
    Ok(claims)
}

/// The entries of which declarations are told, and all entries by name.
#[derive(Drop)]
pub(crate) struct Claims {
    pub columns: Vec<Entry>,
    pub by_name: Vec<Vec<Claim>>,
}

impl Claims {
    ghost use Rattle.std.specs.Prelude.{IfOk};
    ghost use Rattle.psdl_members.specs.inner.Claims.{AreClaims};
    ghost use Rattle.psdl_members.specs.inner.Heirs.{AreColumns};

    /// The claims of these rows.
    pub(crate) fn new(alloc: Global, rows: &Rows) -> Result<Claims, NoMemory>
        ensures columns { IfOk result (λ c. AreColumns rows.now.entries.items c.columns.items) }
        ensures claims { IfOk result (λ c. AreClaims rows.now c.by_name.items) }
    {
        let columns = columns_of(alloc, rows)?;
        let by_name = claims_of(alloc, rows)?;
        Ok(Claims { columns, by_name })
    }
}

/// The claims to a name.
pub(crate) fn claims_to(claims: &[Vec<Claim>], name: usize) -> &[Claim]
    ensures { result.now ≡ claims_in claims.now name }
{
    match claims.get(name) {
        Some(found) => found.as_slice(),
        None => &[],
    }
}
