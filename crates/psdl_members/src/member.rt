// State members.
use psdl_tree::{Identifier, StateType};

/// A state member, with the index of the declaration that has it in its body.
#[derive(Clone, Copy)]
pub struct Member<'d> {
    pub declaration: usize,
    pub name: &'d Identifier,
    pub state_type: &'d StateType,
    pub readonly: bool,
}
