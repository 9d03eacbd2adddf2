// The schema of people.
ghost use Rattle.std.specs.Prelude.{◌≡◌, ◌∷◌, [], IfOk, codes};
ghost use Rattle.type_layout.specs.Members.{plain_member};
ghost use Rattle.type_layout.specs.Types.{RefTo};
ghost use Rattle.type_layout.specs.Views.{plain_type};
ghost use Rattle.people_demo.specs.People as plain;

use pss_base::{Bytes, NoMemory};
use std::alloc::Global;
use type_layout::{
    DeclaredFactories, DeclaredFactory, Factories, HeldFactories, Home, HomeList, HomeNo, HomeNos,
    Indexes, Key, KeyList, KeyNo, KeyNos, Layout, Member, Members, Names, PlacedNames,
    ProvidedList, Provision, Schema, Scope, ScopeNo, Scopes, Ty,
};

const PEOPLE: HomeNo = HomeNo(1);

// The place of a member.
const SSN: u32 = 0;

fn one_index(alloc: Global, place: u32) -> Result<Indexes, NoMemory>
    ensures { IfOk result (λ made. made ≡ place ∷ []) }
{
    let mut made = Indexes::new(alloc);
    made.push(place)?;
    Ok(made)
}

// A reference to one of the people.
fn to_people(alloc: Global) -> Result<Ty, NoMemory>
    ensures { IfOk result (λ ty. plain_type ty ≡ RefTo (record { 0 = 1 } ∷ [])) }
{
    let mut homes = HomeNos::new(alloc);
    homes.push(PEOPLE)?;
    Ok(Ty::Ref(homes))
}

fn member(alloc: Global, name: &[u8], ty: Ty, readonly: bool) -> Result<Member, NoMemory>
    ensures { IfOk result (λ made. plain_member made ≡ record { name = name.now; type = plain_type ty; readonly = readonly }) }
{
    let name = Bytes::from_slice(alloc, name)?;
    Ok(Member { name, ty, readonly })
}

// A number that stays.
fn ssn(alloc: Global) -> Result<Member, NoMemory>
    ensures { IfOk result (λ made. plain_member made ≡ plain.ssn) }
{
    member(alloc, b"ssn", Ty::Str(0), true)
}

fn name(alloc: Global) -> Result<Member, NoMemory>
    ensures { IfOk result (λ made. plain_member made ≡ plain.name) }
{
    member(alloc, b"name", Ty::Str(0), false)
}

fn boss(alloc: Global) -> Result<Member, NoMemory>
    ensures { IfOk result (λ made. plain_member made ≡ plain.boss) }
{
    match to_people(alloc) {
        Ok(ty) => member(alloc, b"boss", ty, false),
        Err(stop) => Err(stop),
    }
}

fn members(alloc: Global) -> Result<Members, NoMemory>
    ensures { IfOk result (λ made. made ≡ plain.members) }
{
    let mut members = Members::new(alloc);
    members.push(ssn(alloc)?)?;
    members.push(name(alloc)?)?;
    members.push(boss(alloc)?)?;
    Ok(members)
}

// The names of the members that a person is made of.
fn given_names(alloc: Global) -> Result<Names, NoMemory>
    ensures { IfOk result (λ made. made ≡ plain.ssn.name ∷ plain.name.name ∷ []) }
{
    let mut names = Names::new(alloc);
    names.push(Bytes::from_slice(alloc, b"ssn")?)?;
    names.push(Bytes::from_slice(alloc, b"name")?)?;
    Ok(names)
}

fn member_names(alloc: Global) -> Result<PlacedNames, NoMemory>
    ensures { IfOk result (λ made. made ≡ plain.ssn.name ∷ plain.name.name ∷ plain.boss.name ∷ []) }
{
    let mut names = given_names(alloc)?;
    names.push(Bytes::from_slice(alloc, b"boss")?)?;
    PlacedNames::new(alloc, names)
}

fn make(alloc: Global) -> Result<DeclaredFactory, NoMemory>
    ensures { IfOk result (λ made. made ≡ record { name = codes "make"; members = plain.ssn.name ∷ plain.name.name ∷ [] }) }
{
    let name = Bytes::from_slice(alloc, b"make")?;
    let members = given_names(alloc)?;
    Ok(DeclaredFactory { name, members })
}

fn held(alloc: Global) -> Result<HeldFactories, NoMemory>
    ensures { IfOk result (λ made. made ≡ record { name = codes "make"; members = plain.ssn.name ∷ plain.name.name ∷ [] } ∷ []) }
{
    let mut declared = Vec::new(alloc);
    declared.push(make(alloc)?)?;
    HeldFactories::alone(alloc, DeclaredFactories::new(alloc, declared)?)
}

fn factories(alloc: Global) -> Result<Factories, NoMemory>
    ensures { IfOk result (λ made. made ≡ plain.factories) }
{
    let members = member_names(alloc)?;
    let held = held(alloc)?;
    Ok(Factories::new(members, held))
}

fn homes(alloc: Global) -> Result<HomeList, NoMemory>
    ensures { IfOk result (λ made. made ≡ plain.homes) }
{
    let name = Bytes::from_slice(alloc, b"PersonHomeBase")?;
    let members = members(alloc)?;
    let mut keys = KeyNos::new(alloc);
    keys.push(KeyNo(0))?;
    let factories = factories(alloc)?;
    let mut homes = HomeList::new(alloc);
    homes.push(Home {
        name,
        base: None,
        layout: Layout { members },
        keys,
        factories,
    })?;
    Ok(homes)
}

fn keys(alloc: Global) -> Result<KeyList, NoMemory>
    ensures { IfOk result (λ made. made ≡ plain.keys) }
{
    let name = Bytes::from_slice(alloc, b"ssn")?;
    let members = one_index(alloc, SSN)?;
    let mut keys = KeyList::new(alloc);
    keys.push(Key {
        name,
        home: PEOPLE,
        members,
    })?;
    Ok(keys)
}

fn provided(alloc: Global) -> Result<ProvidedList, NoMemory>
    ensures { IfOk result (λ made. made ≡ plain.provided) }
{
    let mut scopes = Scopes::new(alloc);
    scopes.push(Scope {
        outer: None,
        name: Bytes::from_slice(alloc, b"People")?,
    })?;
    let mut provisions = Vec::new(alloc);
    provisions.push(Provision {
        catalog: ScopeNo(0),
        name: Bytes::from_slice(alloc, b"persons")?,
        home: PEOPLE,
    })?;
    Ok(ProvidedList::new(scopes, provisions))
}

/// The schema of people: one storage home with a key, of a type with a number that stays, a name, and a reference to a boss.
pub fn people(alloc: Global) -> Result<Schema, NoMemory>
    ensures { IfOk result (λ schema. schema ≡ plain.people) }
{
    let homes = homes(alloc)?;
    let keys = keys(alloc)?;
    let provided = provided(alloc)?;
    Ok(Schema {
        homes,
        keys,
        provided,
    })
}
