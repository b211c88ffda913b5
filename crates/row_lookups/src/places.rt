//! The places of the rows that a look-up finds.

ghost use Rattle.std.specs.Prelude.{◌≡◌, ◌++◌, length, IfOk, OnOk};
ghost use Rattle.std.specs.List.{All, Contains};
ghost use Rattle.sql_tree.specs.Placed.{IsPlaced};
ghost use Rattle.lookups.specs.Lent.{operands_lent, operands_listed};
ghost use Rattle.lookups.specs.Lookups.{is_found, key_at};
ghost use Rattle.row_lookups.specs.Finding.{places_of_each, places_where, places_with};

use crate::keys::{has_null, key_at};
use ae_base::atoms::{Atom, Row};
use ae_base::lists::Seq;
use ae_base::sameness::Same;
use indexed_tables::tables::Table;
use key_index::keys::Key;
use scalar::rows::LentRow;
use sql_tree::bound::BoundOperand;
use std::alloc::{AllocError, Global};

/// The places of the rows that have one of some keys in these columns, each once, in their order.
pub(crate) fn places_found<K: Same>(
    alloc: Global,
    table: &Table<K>,
    columns: &[usize],
    keys: &[Seq<&BoundOperand>],
    row: &LentRow<'_, K>,
    params: &[Atom<K>],
) -> Result<Vec<usize>, AllocError>
    requires unique { Contains table.now.keys columns.now }
    requires placed { All (λ values. All (IsPlaced (length row.now) (length params.now)) values)
        (operands_listed keys.now) }
    ensures { IfOk result (λ places. places.items
        ≡ places_where (is_found params.now
        (record { places = columns.now; keys = operands_listed keys.now }) row.now)
        0 table.now.rows) }
{
    let mut places = places_of_each(alloc, table, columns, keys, row, params)?;
    places.sort_unstable();
    places.dedup();
    Ok(places)
}

/// The places of the rows with each of some keys, one key after another.
fn places_of_each<K: Same>(
    alloc: Global,
    table: &Table<K>,
    columns: &[usize],
    keys: &[Seq<&BoundOperand>],
    row: &LentRow<'_, K>,
    params: &[Atom<K>],
) -> Result<Vec<usize>, AllocError>
    requires unique { Contains table.now.keys columns.now }
    requires placed { All (λ values. All (IsPlaced (length row.now) (length params.now)) values)
        (operands_listed keys.now) }
    ensures { IfOk result (λ places. places.items ≡ places_of_each params.now row.now columns.now
        (operands_listed keys.now) table.now.rows) }
{
    let mut places = Vec::new(alloc);
    for values in keys {
        let key = key_at(alloc, values.as_slice(), row, params)?;
        places_with(alloc, table, columns, &key, &mut places)?;
    }
    Ok(places)
}

/// Puts the places of the rows with a key at the end; none, where it has a NULL.
fn places_with<K: Same>(
    alloc: Global,
    table: &Table<K>,
    columns: &[usize],
    key: &Row<K>,
    places: &mut Vec<usize>,
) -> Result<(), AllocError>
    requires { Contains table.now.keys columns.now }
    ensures { OnOk result (places.new.items ≡ places.old.items
        ++ places_with columns.now key.now table.now.rows) }
{
    if has_null(key) {
        return Ok(());
    }
    let key = Key::copied(alloc, key)?;
    table.places_with(columns, &key, places)
}
