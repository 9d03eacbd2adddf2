// What expressions come to, level by level of operators. What is wrong with their operands is noted.
ghost use Rattle.std.specs.Prelude.{◌≡◌, ◌≤◌, IfOk, OnOk, IfSome};
ghost use Rattle.psdl_tree.specs.Views as views;
ghost use Rattle.psdl_standings.specs.Expressions as expressions;
ghost use Rattle.psdl_standings.specs.inner.Sights.{scene_of, value_at};
ghost use Rattle.psdl_standings.specs.inner.Walks.{noted};
ghost use Rattle.psdl_standings.specs.Values as values;
ghost use Rattle.psdl_standings.specs.inner.Assessments.{seen};

use crate::assessment::{Assessment, operated, signed, simply};
use crate::body_faults::BodyFaults;
use crate::operator::Operator;
use crate::sight::{Sight, value_of};
use psdl_directory::{CheckFault, CheckKind};
use psdl_tree::{
    And, Expression, Primary, Product, ProductOperator, Shift, ShiftOperator, Sum, SumOperator,
    Unary, Xor,
};
use pss_base::NoMemory;
use std::alloc::Global;

fn shift_operator(operator: ShiftOperator) -> Operator
    ensures { result ≡ values.shift_operator operator }
{
    match operator {
        ShiftOperator::Left => Operator::ShiftLeft,
        ShiftOperator::Right => Operator::ShiftRight,
    }
}

fn sum_operator(operator: SumOperator) -> Operator
    ensures { result ≡ values.sum_operator operator }
{
    match operator {
        SumOperator::Plus => Operator::Plus,
        SumOperator::Minus => Operator::Minus,
    }
}

fn product_operator(operator: ProductOperator) -> Operator
    ensures { result ≡ values.product_operator operator }
{
    match operator {
        ProductOperator::Times => Operator::Times,
        ProductOperator::Divide => Operator::Quotient,
        ProductOperator::Remainder => Operator::Remainder,
    }
}

#[cycle(levels)]
fn primary(
    alloc: Global,
    sight: &Sight<'_, '_>,
    width: Option<u32>,
    faults: &mut BodyFaults,
    node: &Primary,
) -> Result<Assessment, NoMemory>
    requires { IfSome width (λ bits. bits ≤ 64) }
    ensures value { IfOk result (λ a. a ≡ seen (values.primary (value_at (scene_of sight.now)) width (views.primary_view node.now))) }
    ensures faults { OnOk result (faults.new ≡ noted (scene_of sight.now) faults.old (expressions.in_primary (views.primary_view node.now))) }
{
    match node {
        Primary::Name(name) => {
            let value = value_of(alloc, sight, faults, name)?;
            Ok(simply(value))
        }
        Primary::Integer(literal) => Ok(simply(i128::try_from(literal.value).ok())),
        Primary::Text(literal) => {
            faults.strings.note(CheckFault {
                place: literal.place,
                kind: CheckKind::WrongKind,
            });
            Ok(simply(None))
        }
        Primary::Group(group) => assess(alloc, sight, width, faults, &group.inner),
    }
}

#[cycle(levels)]
fn unary(
    alloc: Global,
    sight: &Sight<'_, '_>,
    width: Option<u32>,
    faults: &mut BodyFaults,
    node: &Unary,
) -> Result<Assessment, NoMemory>
    requires { IfSome width (λ bits. bits ≤ 64) }
    ensures value { IfOk result (λ a. a ≡ seen (values.unary (value_at (scene_of sight.now)) width (views.unary_view node.now))) }
    ensures faults { OnOk result (faults.new ≡ noted (scene_of sight.now) faults.old (expressions.in_unary (views.unary_view node.now))) }
{
    let operand = primary(alloc, sight, width, faults, &node.operand)?;
    Ok(signed(width, node.sign, operand))
}

#[cycle(levels)]
fn product(
    alloc: Global,
    sight: &Sight<'_, '_>,
    width: Option<u32>,
    faults: &mut BodyFaults,
    node: &Product,
) -> Result<Assessment, NoMemory>
    requires { IfSome width (λ bits. bits ≤ 64) }
    ensures value { IfOk result (λ a. a ≡ seen (values.product (value_at (scene_of sight.now)) width (views.product_view node.now))) }
    ensures faults { OnOk result (faults.new ≡ noted (scene_of sight.now) faults.old (expressions.in_product (views.product_view node.now))) }
{
    let mut so_far = unary(alloc, sight, width, faults, &node.first)?;
    for part in &node.others {
        let next = unary(alloc, sight, width, faults, &part.operand)?;
        so_far = operated(product_operator(part.operator), part.place, so_far, next);
    }
    Ok(so_far)
}

#[cycle(levels)]
fn sum(
    alloc: Global,
    sight: &Sight<'_, '_>,
    width: Option<u32>,
    faults: &mut BodyFaults,
    node: &Sum,
) -> Result<Assessment, NoMemory>
    requires { IfSome width (λ bits. bits ≤ 64) }
    ensures value { IfOk result (λ a. a ≡ seen (values.sum (value_at (scene_of sight.now)) width (views.sum_view node.now))) }
    ensures faults { OnOk result (faults.new ≡ noted (scene_of sight.now) faults.old (expressions.in_sum (views.sum_view node.now))) }
{
    let mut so_far = product(alloc, sight, width, faults, &node.first)?;
    for part in &node.others {
        let next = product(alloc, sight, width, faults, &part.operand)?;
        so_far = operated(sum_operator(part.operator), part.place, so_far, next);
    }
    Ok(so_far)
}

#[cycle(levels)]
fn shift(
    alloc: Global,
    sight: &Sight<'_, '_>,
    width: Option<u32>,
    faults: &mut BodyFaults,
    node: &Shift,
) -> Result<Assessment, NoMemory>
    requires { IfSome width (λ bits. bits ≤ 64) }
    ensures value { IfOk result (λ a. a ≡ seen (values.shift (value_at (scene_of sight.now)) width (views.shift_view node.now))) }
    ensures faults { OnOk result (faults.new ≡ noted (scene_of sight.now) faults.old (expressions.in_shift (views.shift_view node.now))) }
{
    let mut so_far = sum(alloc, sight, width, faults, &node.first)?;
    for part in &node.others {
        let next = sum(alloc, sight, width, faults, &part.operand)?;
        so_far = operated(shift_operator(part.operator), part.place, so_far, next);
    }
    Ok(so_far)
}

#[cycle(levels)]
fn and(
    alloc: Global,
    sight: &Sight<'_, '_>,
    width: Option<u32>,
    faults: &mut BodyFaults,
    node: &And,
) -> Result<Assessment, NoMemory>
    requires { IfSome width (λ bits. bits ≤ 64) }
    ensures value { IfOk result (λ a. a ≡ seen (values.and (value_at (scene_of sight.now)) width (views.and_view node.now))) }
    ensures faults { OnOk result (faults.new ≡ noted (scene_of sight.now) faults.old (expressions.in_and (views.and_view node.now))) }
{
    let mut so_far = shift(alloc, sight, width, faults, &node.first)?;
    for part in &node.others {
        let next = shift(alloc, sight, width, faults, &part.operand)?;
        so_far = operated(Operator::Conjunction, part.place, so_far, next);
    }
    Ok(so_far)
}

#[cycle(levels)]
fn xor(
    alloc: Global,
    sight: &Sight<'_, '_>,
    width: Option<u32>,
    faults: &mut BodyFaults,
    node: &Xor,
) -> Result<Assessment, NoMemory>
    requires { IfSome width (λ bits. bits ≤ 64) }
    ensures value { IfOk result (λ a. a ≡ seen (values.xor (value_at (scene_of sight.now)) width (views.xor_view node.now))) }
    ensures faults { OnOk result (faults.new ≡ noted (scene_of sight.now) faults.old (expressions.in_xor (views.xor_view node.now))) }
{
    let mut so_far = and(alloc, sight, width, faults, &node.first)?;
    for part in &node.others {
        let next = and(alloc, sight, width, faults, &part.operand)?;
        so_far = operated(Operator::Exclusion, part.place, so_far, next);
    }
    Ok(so_far)
}

/// What an expression comes to, of the bits of an unsigned type where it is of one.
#[cycle(levels)]
pub(crate) fn assess(
    alloc: Global,
    sight: &Sight<'_, '_>,
    width: Option<u32>,
    faults: &mut BodyFaults,
    node: &Expression,
) -> Result<Assessment, NoMemory>
    requires { IfSome width (λ bits. bits ≤ 64) }
    ensures value { IfOk result (λ a. a ≡ seen (values.assessed (value_at (scene_of sight.now)) width (views.expression_view node.now))) }
    ensures faults { OnOk result (faults.new ≡ noted (scene_of sight.now) faults.old (expressions.operands (views.expression_view node.now))) }
{
    let mut so_far = xor(alloc, sight, width, faults, &node.first)?;
    for part in &node.others {
        let next = xor(alloc, sight, width, faults, &part.operand)?;
        so_far = operated(Operator::Disjunction, part.place, so_far, next);
    }
    Ok(so_far)
}
