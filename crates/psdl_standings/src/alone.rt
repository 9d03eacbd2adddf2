// The string that is the whole of an expression.
ghost use Rattle.std.specs.Prelude.{◌≡◌, option_map};
ghost use Rattle.psdl_tree.specs.Views as views;
ghost use Rattle.psdl_standings.specs.Expressions as of;
ghost use Rattle.psdl_standings.specs.inner.Alone as alone;

use psdl_tree::{And, Expression, Primary, Product, Shift, Sum, TextLiteral, Unary, Xor};

// The operand of a level that has no operator.
fn lone_xor<'a>(expression: &'a Expression) -> Option<&'a Xor>
    ensures { option_map (λ x. views.xor_view x.now) result ≡ alone.only_xor (views.expression_view expression.now) }
{
    if expression.others.is_empty() {
        return Some(&expression.first);
    }
    None
}

fn lone_and<'a>(xor: &'a Xor) -> Option<&'a And>
    ensures { option_map (λ x. views.and_view x.now) result ≡ alone.only_and (views.xor_view xor.now) }
{
    if xor.others.is_empty() {
        return Some(&xor.first);
    }
    None
}

fn lone_shift<'a>(and: &'a And) -> Option<&'a Shift>
    ensures { option_map (λ x. views.shift_view x.now) result ≡ alone.only_shift (views.and_view and.now) }
{
    if and.others.is_empty() {
        return Some(&and.first);
    }
    None
}

fn lone_sum<'a>(shift: &'a Shift) -> Option<&'a Sum>
    ensures { option_map (λ x. views.sum_view x.now) result ≡ alone.only_sum (views.shift_view shift.now) }
{
    if shift.others.is_empty() {
        return Some(&shift.first);
    }
    None
}

fn lone_product<'a>(sum: &'a Sum) -> Option<&'a Product>
    ensures { option_map (λ x. views.product_view x.now) result ≡ alone.only_product (views.sum_view sum.now) }
{
    if sum.others.is_empty() {
        return Some(&sum.first);
    }
    None
}

fn lone_unary<'a>(product: &'a Product) -> Option<&'a Unary>
    ensures { option_map (λ x. views.unary_view x.now) result ≡ alone.only_unary (views.product_view product.now) }
{
    if product.others.is_empty() {
        return Some(&product.first);
    }
    None
}

fn lone_text<'a>(unary: &'a Unary) -> Option<&'a TextLiteral>
    ensures { option_map (λ t. t.now) result ≡ alone.only_text (views.unary_view unary.now) }
{
    if unary.sign.is_some() {
        return None;
    }
    match &unary.operand {
        Primary::Text(text) => Some(text),
        _ => None,
    }
}

// The sum that is the whole of an expression.
fn sum_alone<'a>(expression: &'a Expression) -> Option<&'a Sum>
    ensures { option_map (λ x. views.sum_view x.now) result ≡ alone.whole_sum (views.expression_view expression.now) }
{
    let xor = lone_xor(expression)?;
    let and = lone_and(xor)?;
    let shift = lone_shift(and)?;
    lone_sum(shift)
}

/// The string that is the whole of an expression.
pub(crate) fn text_alone<'a>(expression: &'a Expression) -> Option<&'a TextLiteral>
    ensures { option_map (λ t. t.now) result ≡ of.whole_text (views.expression_view expression.now) }
{
    let sum = sum_alone(expression)?;
    let product = lone_product(sum)?;
    let unary = lone_unary(product)?;
    lone_text(unary)
}
