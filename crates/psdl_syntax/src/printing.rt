//! The canonical text of a tree.
ghost use Rattle.std.specs.Prelude.{◌≡◌, IfOk};
ghost use Rattle.psdl_syntax.specs.Again.{KeepsTree};
ghost use Rattle.psdl_syntax.specs.Canonical.{canonical};
ghost use Rattle.psdl_tree.specs.Views.{tree_view};

mod definitions;
mod expressions;
mod literals;
mod members;
mod names;
mod printer;
mod stores;
mod types;

use definitions::print_definitions;
use printer::Printer;
use psdl_tree::Tree;
use pss_base::{Bytes, NoMemory};
use std::alloc::Global;

/// The canonical text of a tree.
///
/// The tokens stand in their order. A line ends behind `{` and `;`, a `}` begins one, and each begins with two spaces
/// for each brace that is open there. Between other tokens stands one space or none: `const long A = -(B + 1);`,
/// `state ref<A::B> c;`, `key k(a, b);`. Integers are decimal. In strings the bytes from a space to `~` stand for
/// themselves, `"` and `\` behind a `\`, and the others as `\x` and two digits, as does a hexadecimal digit directly
/// behind such a byte. An identifier has `_` in front where it is a keyword in any case or a left-out word. A tree
/// without definitions has the empty text.
pub fn print(alloc: Global, tree: &Tree) -> Result<Bytes, NoMemory>
    ensures text { IfOk result (λ text. text ≡ canonical (tree_view tree.now)) }
    // What a text was read as is read from its canonical text again, but for places.
    ensures again { IfOk result (λ text. KeepsTree text (tree_view tree.now)) }
{
    let mut printer = Printer::new(alloc);
    print_definitions(&mut printer, &tree.definitions)?;
    Ok(printer.into_text())
}
