//! The truth of a condition in a row.

ghost use Rattle.std.specs.Prelude.{◌≡◌, length, map};
ghost use Rattle.std.specs.List.{All};
ghost use Rattle.sql_tree.specs.Operands.{operand_of};
ghost use Rattle.sql_tree.specs.Conditions as conditions;
ghost use Rattle.sql_tree.specs.Conditions.{condition_of};
ghost use Rattle.scalar.specs.Eval.{in_list, truth, truth_all, truth_any};
ghost use Rattle.sql_tree.specs.Listed.{conditions_listed};
ghost use Rattle.sql_tree.specs.Placed.{IsPlaced, IsPlacedCondition, ArePlacedConditions};

use crate::faults::Overflow;
use crate::lent::Lent;
use crate::operands::lend;
use crate::rows::LentRow;
use crate::truth::Truth;
use ae_base::atoms::Atom;
use ae_base::sameness::Same;
use sql_tree::bound::{BoundCondition, BoundOperand};
use sql_tree::conditions::{Comparison, Condition};

/// The truth of a condition in a row, with the values of the parameters. AND and OR stop for
/// nothing: every part is evaluated. It takes no memory.
#[cycle(truth)]
pub fn truth<'a, K: Same>(
    condition: &'a BoundCondition,
    row: &LentRow<'a, K>,
    params: &'a [Atom<K>],
) -> Result<Truth, Overflow>
    requires { IsPlacedCondition (length row.now) (length params.now) (condition_of condition.now) }
    ensures { result ≡ truth row.now params.now (condition_of condition.now) }
{
    match condition {
        Condition::Compare {
            comparison,
            left,
            right,
            ..
        } => compare(*comparison, left, right, row, params),
        Condition::IsNull { negated, operand } => is_null(*negated, operand, row, params),
        Condition::In {
            negated,
            operand,
            list,
            ..
        } => is_in(*negated, operand, list, row, params),
        Condition::Not(condition) => Ok(truth(condition, row, params)?.negation()),
        Condition::AllOf(conditions) => all_of(conditions, row, params),
        Condition::AnyOf(conditions) => any_of(conditions, row, params),
    }
}

fn compare<'a, K: Same>(
    comparison: Comparison,
    left: &'a BoundOperand,
    right: &'a BoundOperand,
    row: &LentRow<'a, K>,
    params: &'a [Atom<K>],
) -> Result<Truth, Overflow>
    requires left { IsPlaced (length row.now) (length params.now) (operand_of left.now) }
    requires right { IsPlaced (length row.now) (length params.now) (operand_of right.now) }
    ensures { result
        ≡ truth row.now params.now
        (conditions.Compare 0 comparison (operand_of left.now) (operand_of right.now)) }
{
    match (lend(left, row, params), lend(right, row, params)) {
        (Ok(left), Ok(right)) => Ok(left.compare(comparison, &right)),
        _ => Err(Overflow),
    }
}

fn is_null<'a, K: Same>(
    negated: bool,
    operand: &'a BoundOperand,
    row: &LentRow<'a, K>,
    params: &'a [Atom<K>],
) -> Result<Truth, Overflow>
    requires { IsPlaced (length row.now) (length params.now) (operand_of operand.now) }
    ensures { result
        ≡ truth row.now params.now (conditions.IsNull negated (operand_of operand.now)) }
{
    match lend(operand, row, params) {
        Ok(value) => Ok(value.null_truth().negated_if(negated)),
        Err(overflow) => Err(overflow),
    }
}

fn is_in<'a, K: Same>(
    negated: bool,
    operand: &'a BoundOperand,
    list: &'a [BoundOperand],
    row: &LentRow<'a, K>,
    params: &'a [Atom<K>],
) -> Result<Truth, Overflow>
    requires operand { IsPlaced (length row.now) (length params.now) (operand_of operand.now) }
    requires list { All (IsPlaced (length row.now) (length params.now)) (map operand_of list.now) }
    ensures { result
        ≡ truth row.now params.now
        (conditions.In 0 negated (operand_of operand.now) (map operand_of list.now)) }
{
    match lend(operand, row, params) {
        Ok(value) => Ok(equals_one(&value, list, row, params)?.negated_if(negated)),
        Err(overflow) => Err(overflow),
    }
}

/// Whether a value equals one of a list.
fn equals_one<'a, K: Same>(
    value: &Lent<'_, K>,
    list: &'a [BoundOperand],
    row: &LentRow<'a, K>,
    params: &'a [Atom<K>],
) -> Result<Truth, Overflow>
    requires { All (IsPlaced (length row.now) (length params.now)) (map operand_of list.now) }
    ensures { result ≡ in_list row.now params.now value.now (map operand_of list.now) }
{
    let mut found = Truth::False;
    for operand in list {
        found = match lend(operand, row, params) {
            Ok(other) => found.or(value.compare(Comparison::Equal, &other)),
            Err(overflow) => return Err(overflow),
        };
    }
    Ok(found)
}

#[cycle(truth)]
fn all_of<'a, K: Same>(
    conditions: &'a [BoundCondition],
    row: &LentRow<'a, K>,
    params: &'a [Atom<K>],
) -> Result<Truth, Overflow>
    requires { ArePlacedConditions (length row.now) (length params.now)
        (conditions_listed conditions.now) }
    ensures { result ≡ truth_all row.now params.now (conditions_listed conditions.now) }
{
    let mut all = Truth::True;
    for condition in conditions {
        all = all.and(truth(condition, row, params)?);
    }
    Ok(all)
}

#[cycle(truth)]
fn any_of<'a, K: Same>(
    conditions: &'a [BoundCondition],
    row: &LentRow<'a, K>,
    params: &'a [Atom<K>],
) -> Result<Truth, Overflow>
    requires { ArePlacedConditions (length row.now) (length params.now)
        (conditions_listed conditions.now) }
    ensures { result ≡ truth_any row.now params.now (conditions_listed conditions.now) }
{
    let mut any = Truth::False;
    for condition in conditions {
        any = any.or(truth(condition, row, params)?);
    }
    Ok(any)
}
