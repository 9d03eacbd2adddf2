// Members with what is kept of their types.
use psdl_tree::Identifier;

/// The type of a member: one with a number, or a reference to a type by the number of its definition.
#[derive(Clone, Copy)]
pub(crate) enum MemberType {
    Plain(usize),
    Reference(usize),
}

/// A member of a layout.
#[derive(Clone, Copy)]
pub(crate) struct TypedMember<'d> {
    pub name: &'d Identifier,
    pub member_type: MemberType,
    pub readonly: bool,
}
