//! Whether WHERE selects a row.

ghost use Rattle.std.specs.Prelude.{length};
ghost use Rattle.std.specs.Option.{option_map};
ghost use Rattle.ae_base.specs.Results.{Answers};
ghost use Rattle.sql_tree.specs.Conditions.{condition_of};
ghost use Rattle.sql_tree.specs.Placed.{IsPlacedFilter};
ghost use Rattle.row_changes.specs.Changes.{selects};

use ae_base::atoms::Atom;
use ae_base::faults::SqlFault;
use ae_base::refusals::Refusal;
use ae_base::sameness::Same;
use scalar::conditions::truth;
use scalar::rows::LentRow;
use scalar::truth::Truth;
use sql_tree::bound::BoundCondition;

/// Whether the filter of a statement is true of a row; without one it is true of all.
pub(crate) fn selects<'a, K: Same>(
    filter: &'a Option<BoundCondition>,
    row: &LentRow<'a, K>,
    params: &'a [Atom<K>],
) -> Result<bool, Refusal>
    requires { IsPlacedFilter (length row.now) (length params.now)
        (option_map condition_of filter.now) }
    ensures { Answers result (selects params.now (option_map condition_of filter.now) row.now) }
{
    let Some(condition) = filter else {
        return Ok(true);
    };
    match truth(condition, row, params) {
        Ok(truth) => Ok(truth == Truth::True),
        Err(_) => Err(Refusal::Fault(SqlFault::Overflow)),
    }
}
