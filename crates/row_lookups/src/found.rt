//! The rows that a look-up finds.

ghost use Rattle.std.specs.Prelude.{◌≡◌, ◌+◌, ◌<◌, [], ℕ, length, map, get_or, IfOk};
ghost use Rattle.std.specs.List.{All};
ghost use Rattle.lookups.specs.Lent.{lookup_made};
ghost use Rattle.lookups.specs.Lookups.{IsLookedUp, is_found, rows_found};
ghost use Rattle.row_lookups.specs.Finding.{places_where};

use crate::places::places_found;
use ae_base::atoms::{Atom, Row};
use ae_base::sameness::Same;
use counting::Steps;
use indexed_tables::tables::Table;
use lookups::finding::Lookup;
use scalar::rows::LentRow;
use std::alloc::{AllocError, Global};
use std::sync::ledger::Ledger;

/// The rows of a table that a look-up finds for a row, in the table's order. It looks at these
/// alone: each is one step.
pub fn found<'t, K: Same, L: Ledger>(
    alloc: Global,
    table: &'t Table<K>,
    lookup: &Lookup<'_>,
    row: &LentRow<'_, K>,
    params: &[Atom<K>],
    looked: &mut Steps<L>,
) -> Result<Vec<&'t Row<K>>, AllocError>
    requires { (more : ℕ) × IsLookedUp table.now.keys (length params.now) (length row.now) more
        (lookup_made lookup.now) }
    ensures rows { IfOk result (λ found. map (λ row. row.now) found.items
        ≡ rows_found params.now (lookup_made lookup.now) row.now table.now.rows) }
    ensures looked { IfOk result (λ found. looked.new ≡ looked.old + length found.items) }
{
    let places = places_in(alloc, table, lookup, row, params)?;
    rows_at(alloc, table, places.as_slice(), looked)
}

/// The places of the rows of a table that a look-up finds for a row, in their order.
pub fn places_in<K: Same>(
    alloc: Global,
    table: &Table<K>,
    lookup: &Lookup<'_>,
    row: &LentRow<'_, K>,
    params: &[Atom<K>],
) -> Result<Vec<usize>, AllocError>
    requires { (more : ℕ) × IsLookedUp table.now.keys (length params.now) (length row.now) more
        (lookup_made lookup.now) }
    ensures { IfOk result (λ places. places.items
        ≡ places_where (is_found params.now (lookup_made lookup.now) row.now) 0 table.now.rows) }
{
    places_found(
        alloc,
        table,
        lookup.places.as_slice(),
        lookup.keys.as_slice(),
        row,
        params,
    )
}

/// The rows at some places of a table.
fn rows_at<'t, K: Same, L: Ledger>(
    alloc: Global,
    table: &'t Table<K>,
    places: &[usize],
    looked: &mut Steps<L>,
) -> Result<Vec<&'t Row<K>>, AllocError>
    requires { All (λ place. place < length table.now.rows) places.now }
    ensures rows { IfOk result (λ found. map (λ row. row.now) found.items
        ≡ map (λ place. get_or table.now.rows place []) places.now) }
    ensures looked { IfOk result (λ found. looked.new ≡ looked.old + length found.items) }
{
    let mut rows = Vec::new(alloc);
    for place in places {
        looked.tick();
        rows.push(table.get(*place))?;
    }
    Ok(rows)
}
