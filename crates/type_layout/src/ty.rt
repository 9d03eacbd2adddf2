// Types of members.
ghost use Rattle.std.specs.Prelude.{◌≡◌, ◌++◌, ◌∷◌, [], map, OnOk, OnErr};
ghost use Rattle.type_layout.specs.Views.{plain_field, plain_fields};

use crate::{HomeNos, PlacedNames};
use pss_base::{Bytes, NoMemory};
use std::alloc::Global;
use std::marker::Model;

/// The type of a member, of IDL but for references, which name the storage homes that they lead to.
/// A bound of 0 is none.
#[cycle(ty)]
#[derive(Drop)]
pub enum Ty {
    Short,
    Long,
    LongLong,
    UShort,
    ULong,
    ULongLong,
    Char,
    Boolean,
    Octet,
    /// A string of at most so many bytes.
    Str(u32),
    /// A sequence of at most so many elements.
    Seq(Box<Ty>, u32),
    /// An array of exactly so many elements.
    Arr(Box<Ty>, u32),
    Struct(Fields),
    Enum(PlacedNames),
    /// A reference to an object of one of these homes.
    Ref(HomeNos),
}

/// A field of a struct.
#[cycle(ty)]
#[derive(Drop)]
pub struct Field {
    pub name: Bytes,
    pub ty: Ty,
}

/// The fields of a struct.
#[cycle(ty)]
#[derive(Drop)]
pub struct Fields {
    pub(crate) fields: Vec<Field>,
}

impl Fields {
    /// None. It takes no memory.
    pub fn new(alloc: Global) -> Fields
        ensures { plain_fields result ≡ [] }
    {
        Fields {
            fields: Vec::new(alloc),
        }
    }

    /// Puts one last. `NoMemory`: the list is as before.
    pub fn push(&mut self, field: Field) -> Result<(), NoMemory>
        ensures ok { OnOk result (plain_fields self.new ≡ plain_fields self.old ++ plain_field field ∷ []) }
        ensures err { OnErr result (plain_fields self.new ≡ plain_fields self.old) }
    {
        self.fields.push(field)?;
        Ok(())
    }

    pub fn as_slice(&self) -> &[Field]
        ensures { map plain_field result.now ≡ plain_fields self.now }
    {
        &self.fields
    }
}

/// Names in order.
#[derive(Drop)]
pub struct Names {
    names: Vec<Bytes>,
}

impl Model for Names {
    ghost use Rattle.std.specs.Prelude.{List, ℕ};

    ghost Value = { List (List ℕ) };

    ghost view = { λ l. l.names.items };
}

impl Names {
    /// None. It takes no memory.
    pub fn new(alloc: Global) -> Names
        ensures { result ≡ [] }
    {
        Names {
            names: Vec::new(alloc),
        }
    }

    /// Puts one last. `NoMemory`: the list is as before.
    pub fn push(&mut self, name: Bytes) -> Result<(), NoMemory>
        ensures ok { OnOk result (self.new ≡ self.old ++ name ∷ []) }
        ensures err { OnErr result (self.new ≡ self.old) }
    {
        self.names.push(name)?;
        Ok(())
    }

    pub fn as_slice(&self) -> &[Bytes]
        ensures { result.now ≡ self.now }
    {
        &self.names
    }
}
