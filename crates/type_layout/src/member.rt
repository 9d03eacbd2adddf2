// Members of storage types, and layouts.
ghost use Rattle.std.specs.Prelude.{◌≡◌, ◌++◌, ◌∷◌, [], map, OnOk, OnErr};
ghost use Rattle.type_layout.specs.Members.{plain_member};

use crate::Ty;
use pss_base::{Bytes, NoMemory};
use std::alloc::Global;
use std::marker::Model;

/// A state member.
#[derive(Drop)]
pub struct Member {
    pub name: Bytes,
    pub ty: Ty,
    /// It is set when the object is made, and never again.
    pub readonly: bool,
}

/// The members of a layout, from number 0.
#[derive(Drop)]
pub struct Members {
    members: Vec<Member>,
}

impl Model for Members {
    ghost use Rattle.std.specs.Prelude.{List};
    ghost use Rattle.type_layout.specs.Types.{PlainMember};
    ghost use Rattle.type_layout.specs.Codes.{members_code};

    ghost Value = { List PlainMember };

    ghost coded = { members_code };

    ghost use Rattle.std.specs.Prelude.{map};
    ghost use Rattle.type_layout.specs.Members.{plain_member};

    ghost view = { λ m. map plain_member m.members.items };
}

impl Members {
    /// None. It takes no memory.
    pub fn new(alloc: Global) -> Members
        ensures { result ≡ [] }
    {
        Members {
            members: Vec::new(alloc),
        }
    }

    /// Puts one last. `NoMemory`: the list is as before.
    pub fn push(&mut self, member: Member) -> Result<(), NoMemory>
        ensures ok { OnOk result (self.new ≡ self.old ++ plain_member member ∷ []) }
        ensures err { OnErr result (self.new ≡ self.old) }
    {
        self.members.push(member)?;
        Ok(())
    }

    pub fn as_slice(&self) -> &[Member]
        ensures { map plain_member result.now ≡ self.now }
    {
        &self.members
    }
}

/// What an object of a storage home keeps: the members of the home's storage type in order.
#[derive(Drop)]
pub struct Layout {
    pub members: Members,
}
