// The layouts of homes.
ghost use Rattle.std.specs.Prelude.{◌≡◌, ℕ, List, None, length, map, option_map, slice_get, IfOk, IfSome, IsTrue};
ghost use Rattle.std.specs.List.{flat_map};
ghost use Rattle.type_layout.specs.declared.home.HomeNo.{HomeNo};
ghost use Rattle.type_layout.specs.Schemas.{given};
ghost use Rattle.type_layout.specs.Types.{PlainType};
ghost use Rattle.psdl_directory.specs.Directories.{all_of};
ghost use Rattle.psdl_members.specs.Bodies.{member_view, member_views, own_members};
ghost use Rattle.psdl_rules.specs.inner.Typed.{HaveMembers};
ghost use Rattle.psdl_standings.specs.Standings.{all_there};
ghost use Rattle.psdl_standings.specs.States.{type_kept, is_kept_below, AreKeptBelow, own_types};
ghost use Rattle.psdl_standings.specs.Texts.{types_in};
ghost use Rattle.psdl_check.specs.inner.Texts.{text_in, IsOne};
ghost use Rattle.psdl_check.specs.inner.TypedMembers.{type_by, typed_view, typed_views, is_there, AreThere, laid_out, laid};

use crate::members::{MemberType, TypedMember};
use crate::text::Text;
use psdl_directory::{DeclarationNo, Directory};
use psdl_lineage::Sources;
use psdl_members::{Member, members_of};
use psdl_standings::StateEntry;
use pss_base::NoMemory;
use std::alloc::Global;

/// What is asked to lay types out: the declarations that have their members in their bodies.
#[derive(Drop)]
pub(crate) struct Layouts<'t, 'd> {
    directory: &'t Directory<'d>,
    sources: Sources<'t>,
    ghost have: { HaveMembers (all_of directory.now) sources },
}

// The type of a member, where it is there.
fn member_type(kept: StateEntry) -> Option<MemberType>
    ensures kept { (types : List PlainType) (homes : ℕ → List HomeNo) → option_map (type_by types homes) result ≡ type_kept types homes kept }
    ensures there { (types count : ℕ) → IsTrue (is_kept_below types count kept) → IfSome result (λ t. IsTrue (is_there types count t)) }
{
    match kept {
        StateEntry::Plain(Some(number)) => Some(MemberType::Plain(number)),
        StateEntry::Reference(Some(definition)) => Some(MemberType::Reference(definition)),
        _ => None,
    }
}

// A member with its type, where that is there.
fn typed_member<'d>(member: &Member<'d>, kept: Option<StateEntry>) -> Option<TypedMember<'d>>
    ensures views { (types : List PlainType) (homes : ℕ → List HomeNo) → option_map (typed_view types homes) result ≡ given kept None (λ k. option_map (laid_out (member_view member.now)) (type_kept types homes k)) }
    ensures there { (types count : ℕ) → IfSome kept (λ k. IsTrue (is_kept_below types count k)) → IfSome result (λ m. IsTrue (is_there types count m.member_type)) }
{
    let kept = kept?;
    let member_type = member_type(kept)?;
    Some(TypedMember {
        name: member.name,
        member_type,
        readonly: member.readonly,
    })
}

fn kept_at(kept: &[StateEntry], place: usize) -> Option<StateEntry>
    ensures { result ≡ slice_get kept.now place }
{
    kept.get(place).copied()
}

// Members with their types, where these are all there.
fn typed_members<'d>(
    alloc: Global,
    members: &[Member<'d>],
    kept: &[StateEntry],
) -> Result<Option<Vec<TypedMember<'d>>>, NoMemory>
    ensures views { IfOk result (λ r. (types : List PlainType) (homes : ℕ → List HomeNo) → option_map (λ v. typed_views types homes v.items) r ≡ all_there (laid (member_views members.now) (map (type_kept types homes) kept.now))) }
    ensures there { IfOk result (λ r. (types count : ℕ) → AreKeptBelow types count kept.now → IfSome r (λ v. AreThere types count v.items)) }
{
    let mut typed = Vec::new(alloc);
    for place in 0..members.len() {
        let Some(member) = typed_member(&members[place], kept_at(kept, place)) else {
            return Ok(None);
        };
        typed.push(member)?;
    }
    Ok(Some(typed))
}

// The members in bodies with their types, where these are all there.
fn typed_in<'d>(
    alloc: Global,
    text: &Text,
    directory: &Directory<'d>,
    bodies: &[DeclarationNo],
) -> Result<Option<Vec<TypedMember<'d>>>, NoMemory>
    requires one { IsOne text.now }
    requires same { all_of directory.now ≡ text_in text.now }
    ensures views { IfOk result (λ r. (homes : ℕ → List HomeNo) → option_map (λ v. typed_views (types_in text.now.standings.now) homes v.items) r ≡ all_there (laid (flat_map (own_members (text_in text.now)) bodies.now) (flat_map (own_types (text_in text.now) homes) bodies.now))) }
    ensures there { IfOk result (λ r. IfSome r (λ v. AreThere (length (types_in text.now.standings.now)) (length (text_in text.now)) v.items)) }
{
    let members = members_of(alloc, directory, bodies)?;
    let kept = text.standings.kept_in(alloc, bodies)?;
    let typed = typed_members(alloc, &members, &kept)?;
    Ok(typed)
}

impl<'t, 'd> Layouts<'t, 'd> {
    ghost use Rattle.std.specs.Prelude.{◌≡◌, ℕ, List, [], length, IfOk};
    ghost use Rattle.type_layout.specs.declared.home.HomeNo.{HomeNo};
    ghost use Rattle.type_layout.specs.Schemas.{given};
    ghost use Rattle.psdl_rules.specs.Layouts.{layout};
    ghost use Rattle.psdl_standings.specs.Standings.{standings};
    ghost use Rattle.psdl_standings.specs.Texts.{types_in};
    ghost use Rattle.psdl_check.specs.inner.Laying.{laid_text};
    ghost use Rattle.psdl_check.specs.inner.Texts.{text_in, IsOne};
    ghost use Rattle.psdl_check.specs.inner.TypedMembers.{typed_views, AreThere, layout_of_home};

    /// What is asked for the types of a text.
    pub(crate) fn new(alloc: Global, text: &Text<'t, 'd>) -> Result<Layouts<'t, 'd>, NoMemory>
        requires { IsOne text.now }
        ensures { IfOk result (λ l. laid_text l ≡ text_in text.now) }
    {
        let directory = text.directory();
        let flags = text.standings.stated(alloc, directory.len())?;
        let sources = Sources::new(alloc, text.lineage, flags)?;
        Ok(Layouts { directory, sources })
    }

    // The members of a type with their types, none where the type of one is not there.
    fn of_type(
        &mut self,
        alloc: Global,
        text: &Text,
        number: DeclarationNo,
    ) -> Result<Vec<TypedMember<'d>>, NoMemory>
        requires one { IsOne text.now }
        requires text { laid_text self.old ≡ text_in text.now }
        ensures same { laid_text self.new ≡ laid_text self.old }
        ensures there { IfOk result (λ v. AreThere (length (types_in text.now.standings.now)) (length (text_in text.now)) v.items) }
        ensures members { IfOk result (λ v. (homes : ℕ → List HomeNo) → typed_views (types_in text.now.standings.now) homes v.items ≡ given (layout (text_in text.now) (standings (text_in text.now)) homes number) [] (λ ms. ms)) }
    {
        let bodies = self.sources.of(alloc, number)?;
        match typed_in(alloc, text, self.directory, &bodies)? {
            Some(typed) => Ok(typed),
            None => Ok(Vec::new(alloc)),
        }
    }

    /// The members of a home, none where the type of one is not there.
    pub(crate) fn of_home(
        &mut self,
        alloc: Global,
        text: &Text,
        home: DeclarationNo,
    ) -> Result<Vec<TypedMember<'d>>, NoMemory>
        requires one { IsOne text.now }
        requires text { laid_text self.old ≡ text_in text.now }
        ensures same { laid_text self.new ≡ laid_text self.old }
        ensures there { IfOk result (λ v. AreThere (length (types_in text.now.standings.now)) (length (text_in text.now)) v.items) }
        ensures members { IfOk result (λ v. (homes : ℕ → List HomeNo) → typed_views (types_in text.now.standings.now) homes v.items ≡ layout_of_home (text_in text.now) homes home) }
    {
        match text.lineage.type_of_home(home) {
            Some(number) => self.of_type(alloc, text, number),
            None => Ok(Vec::new(alloc)),
        }
    }
}
