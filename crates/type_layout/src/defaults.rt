// The values that members have until others are given.
ghost use Rattle.std.specs.Prelude.{◌≡◌, IfOk, map};
ghost use Rattle.type_layout.specs.Types.{Items, Parts, fields_of, values_of};
ghost use Rattle.type_layout.specs.Views.{plain_type, plain_field, plain_value, plain_values};
ghost use Rattle.type_layout.specs.Defaults.{default, defaults, copies};

use crate::{Field, Ty, Value, Values};
use pss_base::{Bytes, NoMemory};
use std::alloc::Global;

/// The default of a type: 0, FALSE, the character 0, the empty string, the empty sequence, nil, the
/// first enumerator; an array and a struct have the defaults of their parts. It takes time and
/// memory in the size of that value.
#[cycle(default_of)]
pub fn default_of(alloc: Global, ty: &Ty) -> Result<Value, NoMemory>
    ensures { IfOk result (λ value. plain_value value ≡ default (plain_type ty.now)) }
{
    match ty {
        Ty::Short => Ok(Value::Int(0)),
        Ty::Long => Ok(Value::Int(0)),
        Ty::LongLong => Ok(Value::Int(0)),
        Ty::UShort => Ok(Value::Int(0)),
        Ty::ULong => Ok(Value::Int(0)),
        Ty::ULongLong => Ok(Value::Int(0)),
        Ty::Char => Ok(Value::Char(0)),
        Ty::Boolean => Ok(Value::Bool(false)),
        Ty::Octet => Ok(Value::Int(0)),
        Ty::Str(_) => Ok(Value::Str(Bytes::new(alloc))),
        Ty::Seq(_, _) => Ok(Value::List(Values::new(alloc))),
        Ty::Arr(item, count) => Ok(Value::List(array_of(alloc, item, *count)?)),
        Ty::Struct(fields) => Ok(Value::Struct(struct_of(alloc, &fields.fields)?)),
        Ty::Enum(_) => Ok(Value::Enum(0)),
        Ty::Ref(_) => Ok(Value::Ref(None)),
    }
}

#[cycle(default_of)]
fn array_of(alloc: Global, item: &Ty, count: u32) -> Result<Values, NoMemory>
    ensures { IfOk result (λ values. values_of (plain_values values) ≡ copies count (default (plain_type item.now))) }
{
    let mut values = Values::new(alloc);
    for _ in 0..count {
        values.push(default_of(alloc, item)?)?;
    }
    Ok(values)
}

#[cycle(default_of)]
fn struct_of(alloc: Global, fields: &[Field]) -> Result<Values, NoMemory>
    ensures { IfOk result (λ values. values_of (plain_values values) ≡ defaults (fields_of (map plain_field fields.now))) }
{
    let mut values = Values::new(alloc);
    for field in fields {
        values.push(field_default(alloc, field)?)?;
    }
    Ok(values)
}

#[cycle(default_of)]
fn field_default(alloc: Global, field: &Field) -> Result<Value, NoMemory>
    ensures { IfOk result (λ value. plain_value value ≡ default (plain_field field.now).type) }
{
    default_of(alloc, &field.ty)
}
