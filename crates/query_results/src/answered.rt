//! The rows of an answer, distinct, in order and cut.

ghost use Rattle.std.specs.Prelude.{◌≡◌, map, IfOk};
ghost use Rattle.sql_tree.specs.Bound.{query_of};
ghost use Rattle.operators.specs.Found.{found_by, top_of};
ghost use Rattle.query_results.specs.Results.{answer_rows, distinct_if};

use ae_base::atoms::Rows;
use ae_base::lists::Seq;
use ae_base::sameness::Same;
use operators::distinct::distinct;
use operators::found::Found;
use operators::order::order;
use sql_tree::bound::BoundQuery;
use std::alloc::{AllocError, Global};

/// The rows of a query's answer: of what was found DISTINCT keeps the first of alike rows, ORDER BY
/// puts them in order, and TOP keeps so many.
pub(crate) fn answered<'a, K: Same>(
    alloc: Global,
    query: &BoundQuery,
    found: Seq<Found<'a, K>>,
) -> Result<Rows<K>, AllocError>
    ensures { IfOk result
        (λ rows. rows
        ≡ answer_rows (query_of query.now) (map (found_by query.now.order_by) found.entry)) }
{
    let mut found = distinct_if(alloc, query, found.into_vec())?;
    order(&mut found, query.order_by.as_slice())?;
    top(&mut found, query.top);
    shown(alloc, found)
}

fn distinct_if<'a, K: Same>(
    alloc: Global,
    query: &BoundQuery,
    found: Vec<Found<'a, K>>,
) -> Result<Vec<Found<'a, K>>, AllocError>
    ensures { IfOk result (λ kept. map (found_by query.now.order_by) kept.items
        ≡ distinct_if query.now.distinct (map (found_by query.now.order_by) found.entry.items)) }
{
    if query.distinct.is_some() {
        distinct(alloc, found)
    } else {
        Ok(found)
    }
}

/// Keeps so many from the start, or all.
fn top<K: Same>(found: &mut Vec<Found<'_, K>>, most: Option<u64>)
    ensures { found.new.items ≡ top_of most found.old.items }
{
    if let Some(most) = most {
        found.truncate(most as usize);
    }
}

/// What is shown of each.
fn shown<K: Same>(alloc: Global, found: Vec<Found<'_, K>>) -> Result<Rows<K>, AllocError>
    ensures { IfOk result (λ rows. rows ≡ map (λ f. f.shown) found.entry.items) }
{
    let mut rows = Rows::new(alloc);
    for row in found {
        rows.push(row.shown)?;
    }
    Ok(rows)
}
