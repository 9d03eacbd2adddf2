// C14: values that leave their ranges, and strings that are too long.
ghost use Rattle.std.specs.Prelude.{◌≡◌, ◌||◌, not, false, length};
ghost use Rattle.type_layout.specs.Schemas.{given};
ghost use Rattle.type_layout.specs.Values.{is_over};
ghost use Rattle.psdl_directory.specs.declared.fault.CheckKind.TheVariants.{ConstRange};
ghost use Rattle.psdl_directory.specs.Fault.{fault_if};
ghost use Rattle.psdl_directory.specs.Noting.{noting};
ghost use Rattle.psdl_standings.specs.Values.{is_within};

use crate::assessment::Assessment;
use crate::range::Range;
use psdl_directory::{CheckKind, Least};
use psdl_tree::TextLiteral;

/// Whether a part leaves the range of all numbers, or the whole its own.
pub(crate) fn is_out(range: Range, assessed: Assessment) -> bool
    ensures { result ≡ (assessed.leaves || given assessed.value false (λ z. not (is_within range.least range.most z))) }
{
    match assessed.value {
        Some(number) => assessed.leaves || !range.has(number),
        None => assessed.leaves,
    }
}

/// Notes a string constant that is longer than its type's bound, where 0 is none.
pub(crate) fn note_long(values: &mut Least, bound: u128, text: &TextLiteral)
    ensures { values.new ≡ noting values.old (fault_if (is_over bound (length text.now.bytes)) ConstRange text.now.place) }
{
    let length = text.bytes.as_slice().len();
    let over = bound != 0 && bound < length as u128;
    values.note_if(over, CheckKind::ConstRange, text.place);
}
