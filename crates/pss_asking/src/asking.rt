// What each data command asks.
ghost use Rattle.std.specs.Prelude.{ℕ, ◌≡◌, ◌+◌, ◌<◌, ◌^◌, length, ok_or};
ghost use Rattle.pss_asking.specs.Given.{members_given, making_of};
ghost use Rattle.type_layout.specs.Views.{plain_values};
ghost use Rattle.type_layout.specs.Keys.{key_members};
ghost use Rattle.pss_machine.specs.Sessions.{Session};
ghost use Rattle.pss_machine.specs.Copies.{Copies};
ghost use Rattle.pss_machine.specs.Operations.{Count, ListOf, Ask, plain_op};
ghost use Rattle.pss_machine.specs.Asking.{obtaining as obtains, only as only_asks, by_entry as names_entry, creating, making, finding, shortening, asking_whether, getting, setting, destroying, following, asking_of_home, read_values};
ghost use Rattle.pss_machine.specs.Values.{types_of};
ghost use Rattle.pss_machine.specs.Names.{factory_named, key_named};
ghost use Rattle.pss_machine.specs.declared.reply.Reply.TheVariants as reply;
ghost use Rattle.pss_asking.specs.Telling.{Tells, entry_named, plain_asked, finding_to};

use crate::asked::{AskFault, Asked, Named, Refusal};
use crate::making::made;
use crate::naming::{entry_called, home_called, is_reference, member_called, only_reads};
use crate::reading::{read_chosen, read_members, read_one};
use pss_machine::{Access, Op, Rest};
use schema_names::NamedSchema;
use std::alloc::Global;
use type_layout::{HomeNo, Indexes, KeyNo, Record, Values, key_at, key_of_values, members_at};

/// What a data command is asked under: the schema with its names, what the session may do, and the serial that a new
/// object takes.
///
/// The rest of a line that a call is given ends at a column below 2 to the 32nd.
#[derive(Clone, Copy, Drop)]
pub struct Asking<'a> {
    pub alloc: Global,
    pub names: &'a NamedSchema,
    pub access: Access,
    pub next: u64,
}

// The object that is found is obtained.
fn obtaining(op: Op) -> Asked
    ensures { plain_asked result ≡ obtains (plain_op op) }
{
    Asked {
        op,
        entry: None,
        obtains: true,
    }
}

// Nothing is obtained, and no entry named.
fn only(op: Op) -> Asked
    ensures { plain_asked result ≡ only_asks (plain_op op) }
{
    Asked {
        op,
        entry: None,
        obtains: false,
    }
}

// The entry of this number is named.
fn by_entry(number: u32, op: Op) -> Asked
    ensures { plain_asked result ≡ names_entry number (plain_op op) }
{
    Asked {
        op,
        entry: Some(number),
        obtains: false,
    }
}

impl Asking<'_> {
    /// `create`: an object of a home, with one value for each member.
    pub fn create(&self, home: &[u8], values: &Rest<'_>) -> Result<Asked, AskFault>
        requires { values.now.column + length values.now.text < 2 ^ 32 }
        ensures { (session : Session) → session.access ≡ self.now.access → Tells plain_asked result (creating self.now.names.now self.now.next session home.now values.now) }
    {
        let home = home_called(self.names, home)?;
        let members = members_at(self.names.schema(), home);
        let values = read_members(self.alloc, members, values)?;
        if only_reads(self.access) {
            return Err(AskFault::Refused(Refusal::ReadOnly));
        }
        Ok(obtaining(Op::Create {
            serial: self.next,
            home,
            value: Record(values),
        }))
    }

    // The numbers of the members that the caller of a factory gives.
    fn factory_members(&self, home: HomeNo, word: &[u8]) -> Result<Indexes, AskFault>
        ensures { Tells (λ numbers. numbers) result (members_given (factory_named self.now.names.now home word.now)) }
    {
        match self.names.factory_members(self.alloc, home, word)? {
            Some(numbers) => Ok(numbers),
            None => Err(AskFault::Refused(Refusal::NoFactory)),
        }
    }

    // An object of a home with one value for each of the members with these numbers, and for each other its default.
    fn make_of(&self, home: HomeNo, numbers: &[u32], values: &Rest<'_>) -> Result<Asked, AskFault>
        requires { values.now.column + length values.now.text < 2 ^ 32 }
        ensures { (session : Session) → session.access ≡ self.now.access → Tells plain_asked result (making_of self.now.names.now self.now.next session home numbers.now values.now) }
    {
        let members = members_at(self.names.schema(), home);
        let given = read_chosen(self.alloc, members, numbers, values)?;
        if only_reads(self.access) {
            return Err(AskFault::Refused(Refusal::ReadOnly));
        }
        Ok(obtaining(Op::Create {
            serial: self.next,
            home,
            value: made(self.alloc, members, numbers, given)?,
        }))
    }

    /// `make`: an object of a home, with one value for each member that the factory names, and for each other its
    /// default.
    pub fn make(&self, home: &[u8], factory: &[u8], values: &Rest<'_>) -> Result<Asked, AskFault>
        requires { values.now.column + length values.now.text < 2 ^ 32 }
        ensures { (session : Session) → session.access ≡ self.now.access → Tells plain_asked result (making self.now.names.now self.now.next session home.now factory.now values.now) }
    {
        let home = home_called(self.names, home)?;
        let numbers = self.factory_members(home, factory)?;
        self.make_of(home, numbers.as_slice(), values)
    }

    // The key of a name.
    fn key(&self, home: HomeNo, word: &[u8]) -> Result<KeyNo, AskFault>
        ensures { Tells (λ k. k) result (ok_or (key_named self.now.names.now home word.now) reply.NoKey) }
    {
        match self.names.key(home, word) {
            Some(key) => Ok(key),
            None => Err(AskFault::Refused(Refusal::NoKey)),
        }
    }

    // One value for each member of a key.
    fn read_key(&self, key: KeyNo, values: &Rest<'_>) -> Result<Values, AskFault>
        requires { values.now.column + length values.now.text < 2 ^ 32 }
        ensures { Tells plain_values result (read_values (types_of (key_members self.now.names.now key)) values.now) }
    {
        let schema = self.names.schema();
        match key_at(schema, key) {
            Some(found) => read_chosen(
                self.alloc,
                members_at(schema, found.home),
                found.members.as_slice(),
                values,
            ),
            None => read_members(self.alloc, &[], values),
        }
    }

    // The object of a home that holds a key whose members have these values.
    fn by_key(&self, home: &[u8], key: &[u8], values: &Rest<'_>) -> Result<Op, AskFault>
        requires { values.now.column + length values.now.text < 2 ^ 32 }
        ensures { Tells plain_op result (finding self.now.names.now home.now key.now values.now) }
    {
        let home = home_called(self.names, home)?;
        let key = self.key(home, key)?;
        let values = self.read_key(key, values)?;
        let bytes = key_of_values(self.alloc, self.names.schema(), key, values.as_slice())?;
        Ok(Op::FindKey { home, key, bytes })
    }

    /// `find`: the object that holds a key whose members have these values, to be obtained.
    pub fn find(&self, home: &[u8], key: &[u8], values: &Rest<'_>) -> Result<Asked, AskFault>
        requires { values.now.column + length values.now.text < 2 ^ 32 }
        ensures { Tells plain_asked result (finding_to obtains self.now.names.now home.now key.now values.now) }
    {
        Ok(obtaining(self.by_key(home, key, values)?))
    }

    /// `findref`: the object that holds a key whose members have these values.
    pub fn findref(&self, home: &[u8], key: &[u8], values: &Rest<'_>) -> Result<Asked, AskFault>
        requires { values.now.column + length values.now.text < 2 ^ 32 }
        ensures { Tells plain_asked result (finding_to only_asks self.now.names.now home.now key.now values.now) }
    {
        Ok(only(self.by_key(home, key, values)?))
    }

    /// `short`: the object of a serial in the family of a home.
    pub fn short(&self, home: &[u8], serial: u64) -> Result<Asked, AskFault>
        ensures { Tells plain_asked result (shortening self.now.names.now home.now serial) }
    {
        let home = home_called(self.names, home)?;
        Ok(obtaining(Op::FindShort { home, serial }))
    }

    /// `exists`: whether the object of an entry is there.
    pub fn exists(&self, named: Option<Named>) -> Result<Asked, AskFault>
        ensures { (copies : Copies) (n : ℕ) → named ≡ entry_named copies n → Tells plain_asked result (asking_whether copies n) }
    {
        let pid = entry_called(named)?.pid;
        Ok(only(Op::Exists { pid }))
    }

    /// `get`: the value of a member of an entry's object.
    pub fn get(&self, named: Option<Named>, member: &[u8]) -> Result<Asked, AskFault>
        ensures { (copies : Copies) (n : ℕ) → named ≡ entry_named copies n → Tells plain_asked result (getting self.now.names.now copies n member.now) }
    {
        let Named { number, pid } = entry_called(named)?;
        let member = member_called(self.names, pid, member)?.number;
        Ok(by_entry(number, Op::Get { pid, member }))
    }

    /// `set`: a member of an entry's object is to have a value.
    pub fn set(
        &self,
        named: Option<Named>,
        member: &[u8],
        value: &Rest<'_>,
    ) -> Result<Asked, AskFault>
        requires { value.now.column + length value.now.text < 2 ^ 32 }
        ensures { (session : Session) (copies : Copies) (n : ℕ) → session.access ≡ self.now.access → named ≡ entry_named copies n → Tells plain_asked result (setting self.now.names.now session copies n member.now value.now) }
    {
        let Named { number, pid } = entry_called(named)?;
        let place = member_called(self.names, pid, member)?;
        let value = read_one(self.alloc, place.member, value)?;
        if only_reads(self.access) {
            return Err(AskFault::Refused(Refusal::ReadOnly));
        }
        if place.member.readonly {
            return Err(AskFault::Refused(Refusal::ReadOnly));
        }
        Ok(by_entry(
            number,
            Op::Set {
                pid,
                member: place.number,
                value,
            },
        ))
    }

    /// `destroy`: the object of an entry is to go.
    pub fn destroy(&self, named: Option<Named>) -> Result<Asked, AskFault>
        ensures { (session : Session) (copies : Copies) (n : ℕ) → session.access ≡ self.now.access → named ≡ entry_named copies n → Tells plain_asked result (destroying session copies n) }
    {
        let pid = entry_called(named)?.pid;
        if only_reads(self.access) {
            return Err(AskFault::Refused(Refusal::ReadOnly));
        }
        Ok(only(Op::Destroy { pid }))
    }

    /// `follow`: the object that a member of an entry's object refers to, to be obtained.
    pub fn follow(&self, named: Option<Named>, member: &[u8]) -> Result<Asked, AskFault>
        ensures { (copies : Copies) (n : ℕ) → named ≡ entry_named copies n → Tells plain_asked result (following self.now.names.now copies n member.now) }
    {
        let Named { number, pid } = entry_called(named)?;
        let place = member_called(self.names, pid, member)?;
        if !is_reference(&place.member.ty) {
            return Err(AskFault::Refused(Refusal::NotRef));
        }
        Ok(Asked {
            op: Op::Follow {
                pid,
                member: place.number,
            },
            entry: Some(number),
            obtains: true,
        })
    }

    /// `count`: how many objects a home and those derived from it have.
    pub fn count(&self, home: &[u8]) -> Result<Asked, AskFault>
        ensures { Tells plain_asked result (asking_of_home self.now.names.now home.now (λ h. Ask (Count h))) }
    {
        let home = home_called(self.names, home)?;
        Ok(only(Op::Count { home }))
    }

    /// `list`: how many objects a home and those derived from it have, and which.
    pub fn list(&self, home: &[u8]) -> Result<Asked, AskFault>
        ensures { Tells plain_asked result (asking_of_home self.now.names.now home.now (λ h. Ask (ListOf h))) }
    {
        let home = home_called(self.names, home)?;
        Ok(only(Op::List { home }))
    }
}
