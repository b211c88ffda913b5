//! The value of an operand in a row.

ghost use Rattle.std.specs.Prelude.{◌≡◌, ◌∷◌, [], length};
ghost use Rattle.sql_tree.specs.Operands.{operand_of};
ghost use Rattle.scalar.specs.Eval.{eval, eval_terms};
ghost use Rattle.sql_tree.specs.Listed.{terms_listed};
ghost use Rattle.sql_tree.specs.Placed.{IsPlaced, ArePlaced};
ghost use Rattle.ae_base.specs.Results.{Answers};

use crate::faults::Overflow;
use crate::lent::Lent;
use crate::rows::LentRow;
use ae_base::atoms::Atom;
use ae_base::refusals::Refusal;
use ae_base::sameness::Same;
use sql_tree::bound::BoundOperand;
use sql_tree::operands::{Operand, Term};

/// What an operand is worth in a row, with the values of the parameters: a copy.
pub fn eval<K: Same>(
    operand: &BoundOperand,
    row: &LentRow<'_, K>,
    params: &[Atom<K>],
) -> Result<Atom<K>, Refusal<Overflow>>
    requires { IsPlaced (length row.now) (length params.now) (operand_of operand.now) }
    ensures { Answers result (eval row.now params.now (operand_of operand.now)) }
{
    match lend(operand, row, params) {
        Ok(lent) => Ok(lent.to_atom()?),
        Err(overflow) => Err(Refusal::Fault(overflow)),
    }
}

/// What an operand is worth, or the overflow of a sum. It takes no memory.
#[cycle(lend)]
pub(crate) fn lend<'a, K: Same>(
    operand: &'a BoundOperand,
    row: &LentRow<'a, K>,
    params: &'a [Atom<K>],
) -> Result<Lent<'a, K>, Overflow>
    requires { IsPlaced (length row.now) (length params.now) (operand_of operand.now) }
    ensures { result ≡ eval row.now params.now (operand_of operand.now) }
{
    match operand {
        Operand::Literal { value, .. } => Ok(Lent::of_value(value)),
        Operand::Param { param, .. } => Ok(Lent::of_atom(&params[*param])),
        Operand::Column { column, .. } => Ok(Lent::of_atom(row.get(*column))),
        Operand::Minus { operand, .. } => match lend(operand, row, params) {
            Ok(lent) => lent.negated(),
            Err(overflow) => Err(overflow),
        },
        Operand::Sum { first, terms } => match lend(first, row, params) {
            Ok(sum) => add_terms(sum.number_or_null(), terms, row, params),
            Err(overflow) => Err(overflow),
        },
    }
}

/// The sum of a first value and terms, from left to right.
#[cycle(lend)]
fn add_terms<'a, K: Same>(
    first: Lent<'a, K>,
    terms: &'a [Term<usize, usize>],
    row: &LentRow<'a, K>,
    params: &'a [Atom<K>],
) -> Result<Lent<'a, K>, Overflow>
    requires { ArePlaced (length row.now) (length params.now) (terms_listed terms.now) }
    ensures { result ≡ eval_terms row.now params.now first.entry (terms_listed terms.now) }
{
    let mut sum = first;
    for term in terms {
        sum = add_term(sum, term, row, params)?;
    }
    Ok(sum)
}

/// A sum and one more term.
#[cycle(lend)]
fn add_term<'a, K: Same>(
    sum: Lent<'a, K>,
    term: &'a Term<usize, usize>,
    row: &LentRow<'a, K>,
    params: &'a [Atom<K>],
) -> Result<Lent<'a, K>, Overflow>
    requires { ArePlaced (length row.now) (length params.now) (terms_listed (term.now ∷ [])) }
    ensures { result ≡ eval_terms row.now params.now sum.entry (terms_listed (term.now ∷ [])) }
{
    match term {
        Term::Plus { operand, .. } => match lend(operand, row, params) {
            Ok(term) => sum.plus(&term),
            Err(overflow) => Err(overflow),
        },
        Term::Minus { operand, .. } => match lend(operand, row, params) {
            Ok(term) => sum.minus(&term),
            Err(overflow) => Err(overflow),
        },
    }
}
