// The values of bounds and dimensions.
ghost use Rattle.std.specs.Prelude.{◌≡◌, ◌||◌, not, false, Some, IfOk, OnOk};
ghost use Rattle.std.specs.Option.{option_and_then};
ghost use Rattle.psdl_tree.specs.Views.{expression_view};
ghost use Rattle.type_layout.specs.Schemas.{given};
ghost use Rattle.psdl_directory.specs.declared.fault.CheckKind.TheVariants.{ConstRange};
ghost use Rattle.psdl_directory.specs.Fault.{fault_if, lesser};
ghost use Rattle.psdl_directory.specs.Noting.{noting};
ghost use Rattle.psdl_standings.specs.Standings.{natural};
ghost use Rattle.psdl_standings.specs.Values.{is_within, assessed};
ghost use Rattle.psdl_standings.specs.inner.Sights.{scene_of, value_at};
ghost use Rattle.psdl_standings.specs.inner.Walks.{bounded};

use crate::assess::assess;
use crate::assessment::Assessment;
use crate::body_faults::BodyFaults;
use crate::const_range::is_out;
use crate::places::expression_place;
use crate::range::Range;
use crate::sight::Sight;
use psdl_directory::{CheckKind, Least};
use psdl_tree::Expression;
use pss_base::{NoMemory, Place};
use std::alloc::Global;

/// Notes an expression that leaves its range, and the first of its divisions by 0.
pub(crate) fn note_value(values: &mut Least, range: Range, place: Place, assessed: Assessment)
    ensures { values.new ≡ lesser (noting values.old (fault_if (assessed.leaves || given assessed.value false (λ z. not (is_within range.least range.most z))) ConstRange place)) assessed.zero }
{
    values.note_if(is_out(range, assessed), CheckKind::ConstRange, place);
    if let Some(fault) = assessed.zero {
        values.note(fault);
    }
}

fn natural(number: Option<i128>) -> Option<u128>
    ensures { result ≡ option_and_then natural number }
{
    match number {
        Some(number) => u128::try_from(number).ok(),
        None => None,
    }
}

/// The value of a bound or a dimension, which counts as of unsigned long long. It is from 1 to `most`: what is wrong
/// with it is noted.
pub(crate) fn bound_of(
    alloc: Global,
    sight: &Sight<'_, '_>,
    faults: &mut BodyFaults,
    most: u32,
    value: &Expression,
) -> Result<Option<u128>, NoMemory>
    ensures value { IfOk result (λ n. n ≡ option_and_then natural (assessed (value_at (scene_of sight.now)) (Some 64) (expression_view value.now)).value) }
    ensures faults { OnOk result (faults.new ≡ bounded (scene_of sight.now) most faults.old (expression_view value.now)) }
{
    let range = Range::from_one(most);
    let assessed = assess(alloc, sight, Some(64), faults, value)?;
    note_value(&mut faults.values, range, expression_place(value), assessed);
    Ok(natural(assessed.value))
}
