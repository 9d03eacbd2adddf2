// What the words of a command name.
ghost use Rattle.std.specs.Prelude.{◌≡◌, ok_or};
ghost use Rattle.pss_machine.specs.Sessions.{Session, is_read_only};
ghost use Rattle.pss_machine.specs.Asking.{read_home, read_member, is_reference as refers};
ghost use Rattle.pss_machine.specs.declared.reply.Reply.TheVariants as reply;
ghost use Rattle.type_layout.specs.Views.{plain_type};
ghost use Rattle.pss_asking.specs.Telling.{Tells, plain_place};

use crate::asked::{AskFault, Named, Refusal};
use pss_base::Pid;
use pss_machine::Access;
use schema_names::NamedSchema;
use type_layout::{HomeNo, Member, Schema, Ty, members_at};

/// A member of a home, by its number.
#[derive(Clone, Copy, Drop)]
pub struct Place<'a> {
    pub number: u32,
    pub member: &'a Member,
}

/// The home that a word names.
pub fn home_called(names: &NamedSchema, word: &[u8]) -> Result<HomeNo, AskFault>
    ensures { Tells (λ h. h) result (read_home names.now word.now) }
{
    match names.home(word) {
        Some(home) => Ok(home),
        None => Err(AskFault::Refused(Refusal::NoHome)),
    }
}

/// The entry that a command names, where the session has it.
pub fn entry_called(named: Option<Named>) -> Result<Named, AskFault>
    ensures { Tells (λ entry. entry) result (ok_or named reply.NoEntry) }
{
    match named {
        Some(entry) => Ok(entry),
        None => Err(AskFault::Refused(Refusal::NoEntry)),
    }
}

/// The member of a name in the home of an object.
pub fn member_called<'a>(
    names: &'a NamedSchema,
    pid: Pid,
    word: &[u8],
) -> Result<Place<'a>, AskFault>
    ensures { Tells plain_place result (read_member names.now pid word.now) }
{
    let home = HomeNo(pid.home);
    let Some(number) = names.member(home, word) else {
        return Err(AskFault::Refused(Refusal::NoMember));
    };
    match members_at(names.schema(), home).get(number as usize) {
        Some(member) => Ok(Place { number, member }),
        None => Err(AskFault::Refused(Refusal::NoMember)),
    }
}

/// A session with this access may not change objects.
pub fn only_reads(access: Access) -> bool
    ensures { (session : Session) → session.access ≡ access → result ≡ is_read_only session }
{
    match access {
        Access::ReadOnly => true,
        Access::ReadWrite => false,
    }
}

/// The type is that of references.
pub fn is_reference(ty: &Ty) -> bool
    ensures { result ≡ refers (plain_type ty.now) }
{
    match ty {
        Ty::Ref(_) => true,
        Ty::Short => false,
        Ty::Long => false,
        Ty::LongLong => false,
        Ty::UShort => false,
        Ty::ULong => false,
        Ty::ULongLong => false,
        Ty::Char => false,
        Ty::Boolean => false,
        Ty::Octet => false,
        Ty::Str(_) => false,
        Ty::Seq(_, _) => false,
        Ty::Arr(_, _) => false,
        Ty::Struct(_) => false,
        Ty::Enum(_) => false,
    }
}
