//! The rows that a DELETE hits.

ghost use Rattle.std.specs.Prelude.{◌≡◌, length, map, IfOk};
ghost use Rattle.std.specs.List.{All};
ghost use Rattle.std.specs.Option.{option_map};
ghost use Rattle.ae_base.specs.Results.{AnswersAs, each};
ghost use Rattle.sql_tree.specs.Conditions.{condition_of};
ghost use Rattle.sql_tree.specs.Placed.{IsPlacedFilter};
ghost use Rattle.row_changes.specs.Changes.{all_tested};
ghost use Rattle.row_changes.specs.Changes.{row_to_delete};

use crate::filters::selects;
use ae_base::atoms::{Atom, Row};
use ae_base::lists::Seq;
use ae_base::refusals::Refusal;
use ae_base::sameness::Same;
use scalar::rows::LentRow;
use sql_tree::bound::BoundCondition;
use std::alloc::Global;

/// For each row of a table whether the filter is true of it, or the first fault.
pub fn hits<K: Same>(
    alloc: Global,
    rows: &[&Row<K>],
    filter: &Option<BoundCondition>,
    params: &[Atom<K>],
) -> Result<Seq<bool>, Refusal>
    requires { All
        (λ row. IsPlacedFilter (length row.now) (length params.now)
        (option_map condition_of filter.now)) rows.now }
    ensures hits { AnswersAs (all_tested (map (λ row. row.now) rows.now)) result
        (each (row_to_delete (option_map condition_of filter.now) params.now)
        (map (λ row. row.now) rows.now)) }
    ensures each { IfOk result (λ hits. length hits ≡ length rows.now) }
{
    let mut hits = Seq::new(alloc);
    for row in rows {
        match selects(filter, &LentRow::whole(row), params) {
            Ok(hit) => hits.push(hit)?,
            Err(refusal) => return Err(refusal),
        }
    }
    Ok(hits)
}
