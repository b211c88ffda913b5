//! The keys that a look-up asks for.

ghost use Rattle.std.specs.Prelude.{◌≡◌, length, not, IfOk};
ghost use Rattle.std.specs.List.{All, list_any};
ghost use Rattle.sql_tree.specs.Operands.{operand_of};
ghost use Rattle.sql_tree.specs.Placed.{IsPlaced};
ghost use Rattle.hash_joins.specs.Keyed.{is_null, no_nulls};
ghost use Rattle.lookups.specs.Lent.{operands_lent};
ghost use Rattle.lookups.specs.Lookups.{key_at, worth};

use ae_base::atoms::{Atom, AtomOf, Row};
use ae_base::refusals::Refusal;
use ae_base::sameness::Same;
use scalar::operands::eval;
use scalar::rows::LentRow;
use sql_tree::bound::BoundOperand;
use std::alloc::{AllocError, Global};

/// What some operands are worth to a row.
pub(crate) fn key_at<K: Same>(
    alloc: Global,
    values: &[&BoundOperand],
    row: &LentRow<'_, K>,
    params: &[Atom<K>],
) -> Result<Row<K>, AllocError>
    requires { All (IsPlaced (length row.now) (length params.now)) (operands_lent values.now) }
    ensures { IfOk result (λ key. key ≡ key_at params.now row.now (operands_lent values.now)) }
{
    let mut key = Row::new(alloc);
    for value in values {
        key.push(worth(value, row, params)?)?;
    }
    Ok(key)
}

/// What an operand is worth to a row, or NULL in the place of an overflow.
fn worth<K: Same>(
    operand: &BoundOperand,
    row: &LentRow<'_, K>,
    params: &[Atom<K>],
) -> Result<Atom<K>, AllocError>
    requires { IsPlaced (length row.now) (length params.now) (operand_of operand.now) }
    ensures { IfOk result (λ atom. atom ≡ worth params.now row.now (operand_of operand.now)) }
{
    match eval(operand, row, params) {
        Ok(atom) => Ok(atom),
        Err(Refusal::Fault(_)) => Ok(Atom::new(AtomOf::Null)),
        Err(Refusal::OutOfMemory) => Err(AllocError),
    }
}

/// Whether an atom is NULL.
pub(crate) fn has_null<K: Same>(key: &Row<K>) -> bool
    ensures { result ≡ not (no_nulls key.now) }
{
    for atom in key.as_slice() {
        if is_null(atom) {
            return true;
        }
    }
    false
}

fn is_null<K: Same>(atom: &Atom<K>) -> bool
    ensures { result ≡ is_null atom.now }
{
    match atom.case() {
        AtomOf::Null => true,
        AtomOf::Plain(_) | AtomOf::Sealed(_) => false,
    }
}
