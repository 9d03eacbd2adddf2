// From texts to values.
ghost use Rattle.std.specs.Prelude.{◌≡◌, ◌≤◌, ◌&&◌, ℕ, length, Err, IfOk, MatchResult};
ghost use Rattle.type_layout.specs.Types.{PlainValue};
ghost use Rattle.type_layout.specs.Views.{plain_type, plain_value};
ghost use Rattle.type_layout.specs.Sound.{IsSound};
ghost use Rattle.type_layout.specs.Testing.{is_of as passes};
ghost use Rattle.value_text.specs.Texts.{Stands, is_at_end};
ghost use Rattle.value_text.specs.Reading.{Gives};
ghost use Rattle.value_text.specs.Line.{one_value};

use crate::ValueFault;
use crate::several::value_of;
use crate::words::Read;
use pss_base::is_blank;
use std::alloc::Global;
use type_layout::{Ty, Value, is_of};

fn is_at_end(text: &[u8]) -> bool
    ensures { result ≡ is_at_end text.now }
{
    match text {
        [first, ..] => is_blank(*first),
        [] => true,
    }
}

#[inline(always)]
fn passes(ty: &Ty, value: &Value) -> bool
    ensures { result ≡ passes (plain_type ty.now) (plain_value value.now) }
{
    is_of(value, ty)
}

/// The value at the front of a text, up to a blank or the end, and the text behind it.
#[tactic(auto, using(crate::proofs::Standing::read_shorter))]
#[inline(always)]
pub(crate) fn front_of<'a>(alloc: Global, ty: &Ty, text: &'a [u8]) -> Read<'a, Value>
    ensures value { Gives (λ x. (plain_value x.0, x.1.now)) result (one_value (plain_type ty.now) text.now) }
    ensures within { IfOk result (λ x. length x.1.now ≤ length text.now) }
{
    let (value, rest) = value_of(alloc, ty, text)?;
    if is_at_end(rest) && passes(ty, &value) {
        return Ok((value, rest));
    }
    Err(ValueFault::BadValue)
}

/// The value of a type that the text spells from a place on, and the place behind it, where a blank
/// stands or the text ends. `found` says that it is spelled there, and `only` that a value of a sound type
/// which stands there is read; so `BadValue` comes exactly where none does (`refused`).
///
/// It goes over the text once, takes memory for what it reads, and the depth of calls is that of the type.
pub fn read_value(
    alloc: Global,
    ty: &Ty,
    text: &[u8],
    at: usize,
) -> Result<(Value, usize), ValueFault>
    requires { at ≤ length text.now }
    ensures found { IfOk result (λ x. Stands (plain_type ty.now) text.now at (plain_value x.0) x.1) }
    ensures only { IsSound (plain_type ty.now) → (value : PlainValue) (end : ℕ) → Stands (plain_type ty.now) text.now at value end → MatchResult result (λ x. (plain_value x.0 ≡ value) × (x.1 ≡ end)) (λ e. e ≡ ValueFault.NoMemory) }
    ensures refused { IsSound (plain_type ty.now) → result ≡ Err ValueFault.BadValue → (value : PlainValue) (end : ℕ) → Stands (plain_type ty.now) text.now at value end → ⊥ }
{
    let (value, rest) = front_of(alloc, ty, &text[at..])?;
    Ok((value, text.len() - rest.len()))
}
