// Where expressions begin.
ghost use Rattle.std.specs.Prelude.{◌≡◌};
ghost use Rattle.psdl_tree.specs.Views as views;
ghost use Rattle.psdl_standings.specs.Expressions as of;

use psdl_directory::name_place;
use psdl_tree::{Expression, Primary, Unary};
use pss_base::Place;

fn primary_place(primary: &Primary) -> Place
    ensures { result ≡ of.primary_place (views.primary_view primary.now) }
{
    match primary {
        Primary::Name(name) => name_place(name),
        Primary::Integer(literal) => literal.place,
        Primary::Text(literal) => literal.place,
        Primary::Group(group) => group.place,
    }
}

fn unary_place(unary: &Unary) -> Place
    ensures { result ≡ of.unary_place (views.unary_view unary.now) }
{
    match unary.sign {
        Some(sign) => sign.place,
        None => primary_place(&unary.operand),
    }
}

/// The place of an expression's first token.
pub(crate) fn expression_place(expression: &Expression) -> Place
    ensures { result ≡ of.expression_place (views.expression_view expression.now) }
{
    let product = &expression.first.first.first.first.first;
    unary_place(&product.first)
}
