//! The parameters that a statement uses.

ghost use Rattle.std.specs.Prelude.{◌≡◌, map};
ghost use Rattle.std.specs.List.{list_any};
ghost use Rattle.std.specs.Option.{option_map};
ghost use Rattle.sql_tree.specs.Operands.{operand_of};
ghost use Rattle.sql_tree.specs.Conditions.{condition_of};
ghost use Rattle.sql_tree.specs.Listed.{terms_listed, conditions_listed, uses_in_term};
ghost use Rattle.sql_tree.specs.Bound as bound;
ghost use Rattle.sql_tree.specs.Uses.{
  uses,
  uses_in,
  uses_in_terms,
  uses_in_condition,
  uses_in_conditions,
  uses_in_filter,
  uses_in_row,
  uses_in_assignment,
  uses_in_item,
  uses_in_join,
  uses_in_statement,
};

use sql_tree::bound::{
    Bound, BoundAssignment, BoundCondition, BoundItem, BoundItemValue, BoundJoin, BoundOperand,
    BoundRow, BoundStatement,
};
use sql_tree::conditions::Condition;
use sql_tree::operands::{Operand, Term};

/// Whether a statement uses the parameter that is declared at a place, from 0. It takes no memory.
pub fn uses(place: usize, statement: &Bound) -> bool
    ensures { result ≡ uses place (bound.bound_of statement.now) }
{
    uses_in_statement(place, &statement.statement)
}

fn uses_in_statement(place: usize, statement: &BoundStatement) -> bool
    ensures { result ≡ uses_in_statement place (bound.statement_of statement.now) }
{
    match statement {
        BoundStatement::Insert(insert) => uses_in_rows(place, insert.rows.as_slice()),
        BoundStatement::Update(update) => {
            uses_in_assignments(place, update.assignments.as_slice())
                || uses_in_filter(place, &update.filter)
        }
        BoundStatement::Delete(delete) => uses_in_filter(place, &delete.filter),
        BoundStatement::Select(query) => {
            uses_in_items(place, query.items.as_slice())
                || uses_in_joins(place, query.joins.as_slice())
                || uses_in_filter(place, &query.filter)
        }
        BoundStatement::Definition(_) | BoundStatement::Control(_) => false,
    }
}

fn uses_in_filter(place: usize, filter: &Option<BoundCondition>) -> bool
    ensures { result ≡ uses_in_filter place (option_map condition_of filter.now) }
{
    match filter {
        Some(condition) => uses_in_condition(place, condition),
        None => false,
    }
}

fn uses_in_rows(place: usize, rows: &[BoundRow]) -> bool
    ensures { result ≡ list_any (uses_in_row place) (map bound.row_of rows.now) }
{
    for row in rows {
        if uses_in_list(place, row.values.as_slice()) {
            return true;
        }
    }
    false
}

fn uses_in_assignments(place: usize, assignments: &[BoundAssignment]) -> bool
    ensures { result
        ≡ list_any (uses_in_assignment place) (map bound.assignment_of assignments.now) }
{
    for assignment in assignments {
        if uses_in(place, &assignment.value) {
            return true;
        }
    }
    false
}

fn uses_in_item(place: usize, item: &BoundItem) -> bool
    ensures { result ≡ uses_in_item place (bound.item_of item.now) }
{
    match &item.value {
        BoundItemValue::Value(operand) => uses_in(place, operand),
        BoundItemValue::Count { .. } => false,
    }
}

fn uses_in_items(place: usize, items: &[BoundItem]) -> bool
    ensures { result ≡ list_any (uses_in_item place) (map bound.item_of items.now) }
{
    for item in items {
        if uses_in_item(place, item) {
            return true;
        }
    }
    false
}

fn uses_in_joins(place: usize, joins: &[BoundJoin]) -> bool
    ensures { result ≡ list_any (uses_in_join place) (map bound.join_of joins.now) }
{
    for join in joins {
        if uses_in_condition(place, &join.on) {
            return true;
        }
    }
    false
}

fn uses_in_list(place: usize, operands: &[BoundOperand]) -> bool
    ensures { result ≡ list_any (uses_in place) (map operand_of operands.now) }
{
    for operand in operands {
        if uses_in(place, operand) {
            return true;
        }
    }
    false
}

#[cycle(uses_in)]
fn uses_in(place: usize, operand: &BoundOperand) -> bool
    ensures { result ≡ uses_in place (operand_of operand.now) }
{
    match operand {
        Operand::Param { param, .. } => *param == place,
        Operand::Literal { .. } | Operand::Column { .. } => false,
        Operand::Minus { operand, .. } => uses_in(place, operand),
        Operand::Sum { first, terms } => uses_in(place, first) || uses_in_terms(place, terms),
    }
}

#[cycle(uses_in)]
fn uses_in_terms(place: usize, terms: &[Term<usize, usize>]) -> bool
    ensures { result ≡ uses_in_terms place (terms_listed terms.now) }
{
    for term in terms {
        if uses_in_term(place, term) {
            return true;
        }
    }
    false
}

#[cycle(uses_in)]
fn uses_in_term(place: usize, term: &Term<usize, usize>) -> bool
    ensures { result ≡ uses_in_term place term.now }
{
    match term {
        Term::Plus { operand, .. } | Term::Minus { operand, .. } => uses_in(place, operand),
    }
}

#[cycle(uses_in_condition)]
fn uses_in_condition(place: usize, condition: &BoundCondition) -> bool
    ensures { result ≡ uses_in_condition place (condition_of condition.now) }
{
    match condition {
        Condition::Compare { left, right, .. } => uses_in(place, left) || uses_in(place, right),
        Condition::IsNull { operand, .. } => uses_in(place, operand),
        Condition::In { operand, list, .. } => {
            uses_in(place, operand) || uses_in_list(place, list)
        }
        Condition::Not(condition) => uses_in_condition(place, condition),
        Condition::AllOf(conditions) => uses_in_conditions(place, conditions),
        Condition::AnyOf(conditions) => uses_in_conditions(place, conditions),
    }
}

#[cycle(uses_in_condition)]
fn uses_in_conditions(place: usize, conditions: &[BoundCondition]) -> bool
    ensures { result ≡ uses_in_conditions place (conditions_listed conditions.now) }
{
    for condition in conditions {
        if uses_in_condition(place, condition) {
            return true;
        }
    }
    false
}
