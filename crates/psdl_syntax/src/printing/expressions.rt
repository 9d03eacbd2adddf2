// Expressions.
#![tactic(auto, using(crate::proofs::Printed::printed_append))]

ghost use Rattle.std.specs.Prelude.{◌≡◌, OnOk};
ghost use Rattle.part_readers.specs.Sentences.{maybe};
ghost use Rattle.psdl_syntax.specs.Grammar as grammar;
ghost use Rattle.psdl_syntax.specs.Printing.{printed};
ghost use Rattle.psdl_tree.specs.Views as views;

use super::names::print_name;
use super::printer::Printer;
use psdl_tokens::Mark;
use psdl_tree::{
    And, Expression, Primary, Product, ProductOperator, Shift, ShiftOperator, Sum, SumOperator,
    Unary, UnaryOperator, UnarySign, Xor,
};
use pss_base::NoMemory;

fn shift_mark(operator: ShiftOperator) -> Mark
    ensures { result ≡ grammar.shift_mark operator }
{
    match operator {
        ShiftOperator::Left => Mark::ShiftLeft,
        ShiftOperator::Right => Mark::ShiftRight,
    }
}

fn sum_mark(operator: SumOperator) -> Mark
    ensures { result ≡ grammar.sum_mark operator }
{
    match operator {
        SumOperator::Plus => Mark::Plus,
        SumOperator::Minus => Mark::Minus,
    }
}

fn product_mark(operator: ProductOperator) -> Mark
    ensures { result ≡ grammar.product_mark operator }
{
    match operator {
        ProductOperator::Times => Mark::Times,
        ProductOperator::Divide => Mark::Divide,
        ProductOperator::Remainder => Mark::Remainder,
    }
}

fn unary_mark(operator: UnaryOperator) -> Mark
    ensures { result ≡ grammar.unary_mark operator }
{
    match operator {
        UnaryOperator::Minus => Mark::Minus,
        UnaryOperator::Plus => Mark::Plus,
        UnaryOperator::Not => Mark::Not,
    }
}

fn print_sign(printer: &mut Printer, sign: Option<UnarySign>) -> Result<(), NoMemory>
    ensures { OnOk result (printer.new ≡ printed printer.old (maybe grammar.unary_sign sign)) }
{
    match sign {
        Some(sign) => printer.mark(unary_mark(sign.operator)),
        None => Ok(()),
    }
}

#[cycle(print_expression)]
fn print_primary(printer: &mut Printer, primary: &Primary) -> Result<(), NoMemory>
    ensures { OnOk result (printer.new ≡ printed printer.old (grammar.primary (views.primary_view primary.now))) }
{
    match primary {
        Primary::Name(name) => print_name(printer, name),
        Primary::Integer(literal) => printer.integer(literal),
        Primary::Text(literal) => printer.string(literal),
        Primary::Group(group) => {
            printer.mark(Mark::LeftParen)?;
            print_expression(printer, &group.inner)?;
            printer.mark(Mark::RightParen)
        }
    }
}

#[cycle(print_expression)]
fn print_unary(printer: &mut Printer, unary: &Unary) -> Result<(), NoMemory>
    ensures { OnOk result (printer.new ≡ printed printer.old (grammar.unary (views.unary_view unary.now))) }
{
    print_sign(printer, unary.sign)?;
    print_primary(printer, &unary.operand)
}

#[cycle(print_expression)]
fn print_product(printer: &mut Printer, product: &Product) -> Result<(), NoMemory>
    ensures { OnOk result (printer.new ≡ printed printer.old (grammar.product (views.product_view product.now))) }
{
    print_unary(printer, &product.first)?;
    for part in &product.others {
        printer.mark(product_mark(part.operator))?;
        print_unary(printer, &part.operand)?;
    }
    Ok(())
}

#[cycle(print_expression)]
fn print_sum(printer: &mut Printer, sum: &Sum) -> Result<(), NoMemory>
    ensures { OnOk result (printer.new ≡ printed printer.old (grammar.sum (views.sum_view sum.now))) }
{
    print_product(printer, &sum.first)?;
    for part in &sum.others {
        printer.mark(sum_mark(part.operator))?;
        print_product(printer, &part.operand)?;
    }
    Ok(())
}

#[cycle(print_expression)]
fn print_shift(printer: &mut Printer, shift: &Shift) -> Result<(), NoMemory>
    ensures { OnOk result (printer.new ≡ printed printer.old (grammar.shift (views.shift_view shift.now))) }
{
    print_sum(printer, &shift.first)?;
    for part in &shift.others {
        printer.mark(shift_mark(part.operator))?;
        print_sum(printer, &part.operand)?;
    }
    Ok(())
}

#[cycle(print_expression)]
fn print_and(printer: &mut Printer, and: &And) -> Result<(), NoMemory>
    ensures { OnOk result (printer.new ≡ printed printer.old (grammar.and (views.and_view and.now))) }
{
    print_shift(printer, &and.first)?;
    for part in &and.others {
        printer.mark(Mark::And)?;
        print_shift(printer, &part.operand)?;
    }
    Ok(())
}

#[cycle(print_expression)]
fn print_xor(printer: &mut Printer, xor: &Xor) -> Result<(), NoMemory>
    ensures { OnOk result (printer.new ≡ printed printer.old (grammar.xor (views.xor_view xor.now))) }
{
    print_and(printer, &xor.first)?;
    for part in &xor.others {
        printer.mark(Mark::Xor)?;
        print_and(printer, &part.operand)?;
    }
    Ok(())
}

/// Adds an expression.
#[cycle(print_expression)]
pub(super) fn print_expression(
    printer: &mut Printer,
    expression: &Expression,
) -> Result<(), NoMemory>
    ensures { OnOk result (printer.new ≡ printed printer.old (grammar.expression (views.expression_view expression.now))) }
{
    print_xor(printer, &expression.first)?;
    for part in &expression.others {
        printer.mark(Mark::Or)?;
        print_xor(printer, &part.operand)?;
    }
    Ok(())
}
