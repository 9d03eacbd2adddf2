// Values of members, and records.
ghost use Rattle.std.specs.Prelude.{◌≡◌, ◌<◌, ◌++◌, ◌∷◌, [], Some, length, map, set, IfOk, OnOk, OnErr};
ghost use Rattle.std.specs.List.{slice_get};
ghost use Rattle.type_layout.specs.Views.{plain_value, plain_values};

use pss_base::{Bytes, NoMemory, Pid};
use std::alloc::Global;
use std::marker::Model;
use std::mem::replace;

/// A value of some type.
#[cycle(value)]
#[derive(Drop)]
pub enum Value {
    /// Of an integer type or of octet.
    Int(i128),
    Char(u8),
    Bool(bool),
    /// An enumerator by its place, counted from 0.
    Enum(u32),
    Str(Bytes),
    /// The elements of a sequence or an array.
    List(Values),
    /// The fields of a struct.
    Struct(Values),
    /// The object that a reference leads to, or nil.
    Ref(Option<Pid>),
}

impl Value {
    /// The same value once more. It takes time and memory in the size of the value.
    #[cycle(copy)]
    #[inline(always)]
    pub fn copy(&self, alloc: Global) -> Result<Value, NoMemory>
        ensures { IfOk result (λ copy. plain_value copy ≡ plain_value self.now) }
    {
        match self {
            Value::Int(number) => Ok(Value::Int(*number)),
            Value::Char(code) => Ok(Value::Char(*code)),
            Value::Bool(truth) => Ok(Value::Bool(*truth)),
            Value::Enum(ordinal) => Ok(Value::Enum(*ordinal)),
            Value::Str(text) => Ok(Value::Str(text.copy()?)),
            Value::List(items) => Ok(Value::List(copies_of(alloc, &items.values)?)),
            Value::Struct(parts) => Ok(Value::Struct(copies_of(alloc, &parts.values)?)),
            Value::Ref(pid) => Ok(Value::Ref(*pid)),
        }
    }
}

#[cycle(copy)]
#[inline(always)]
fn copies_of(alloc: Global, values: &[Value]) -> Result<Values, NoMemory>
    ensures { IfOk result (λ copies. plain_values copies ≡ map plain_value values.now) }
{
    let mut copies = Values::with_room(alloc, values.len())?;
    for value in values {
        copies.push(value.copy(alloc)?)?;
    }
    Ok(copies)
}

/// Values, one behind the other.
#[cycle(value)]
#[derive(Drop)]
pub struct Values {
    pub(crate) values: Vec<Value>,
}

impl Values {
    /// None. It takes no memory.
    pub fn new(alloc: Global) -> Values
        ensures { plain_values result ≡ [] }
    {
        Values {
            values: Vec::new(alloc),
        }
    }

    /// None, to which so many are to be added. `NoMemory`: there was no room for them.
    pub fn with_room(alloc: Global, count: usize) -> Result<Values, NoMemory>
        ensures { IfOk result (λ values. plain_values values ≡ []) }
    {
        Ok(Values {
            values: Vec::with_capacity(alloc, count)?,
        })
    }

    /// The same values once more. It takes time and memory in their size.
    pub fn copy(&self, alloc: Global) -> Result<Values, NoMemory>
        ensures { IfOk result (λ copy. plain_values copy ≡ plain_values self.now) }
    {
        copies_of(alloc, &self.values)
    }

    /// Puts one last. `NoMemory`: the list is as before.
    pub fn push(&mut self, value: Value) -> Result<(), NoMemory>
        ensures ok { OnOk result (plain_values self.new ≡ plain_values self.old ++ plain_value value ∷ []) }
        ensures err { OnErr result (plain_values self.new ≡ plain_values self.old) }
    {
        self.values.push(value)?;
        Ok(())
    }

    /// Puts a value in the place of the one with this number, counted from 0, and gives that one.
    pub fn replace(&mut self, index: usize, value: Value) -> Value
        requires { index < length (plain_values self.old) }
        ensures given { slice_get (plain_values self.old) index ≡ Some (plain_value result) }
        ensures replaced { plain_values self.new ≡ set (plain_values self.old) index (plain_value value) }
    {
        replace(&mut self.values[index], value)
    }

    pub fn as_slice(&self) -> &[Value]
        ensures { map plain_value result.now ≡ plain_values self.now }
    {
        &self.values
    }
}

/// The values of an object's members, in the order of its layout.
#[derive(Drop)]
pub struct Record(pub Values);

impl Model for Record {
    ghost use Rattle.std.specs.Prelude.{List};
    ghost use Rattle.type_layout.specs.Types.{PlainValue};
    ghost use Rattle.type_layout.specs.Codes.{record_code};

    ghost Value = { List PlainValue };

    ghost coded = { record_code };

    ghost use Rattle.type_layout.specs.Views.{plain_values};

    ghost view = { λ r. plain_values r.0 };
}

impl Record {
    /// The same record once more. It takes time and memory in its size.
    pub fn copy(&self, alloc: Global) -> Result<Record, NoMemory>
        ensures { IfOk result (λ copy. copy ≡ self.now) }
    {
        Ok(Record(self.0.copy(alloc)?))
    }

    /// Puts a value in the place of the one of the member with this number, and gives that one.
    pub fn replace(&mut self, member: usize, value: Value) -> Value
        requires { member < length self.old }
        ensures given { slice_get self.old member ≡ Some (plain_value result) }
        ensures replaced { self.new ≡ set self.old member (plain_value value) }
    {
        self.0.replace(member, value)
    }
}
