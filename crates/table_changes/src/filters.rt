//! Whether WHERE gives a unique key.

ghost use Rattle.std.specs.Prelude.{◌≡◌, IfOk};
ghost use Rattle.std.specs.Option.{option_map};
ghost use Rattle.sql_tree.specs.Conditions.{condition_of};
ghost use Rattle.lookups.specs.Lent.{lookup_made};
ghost use Rattle.table_changes.specs.Found.{lookup_of_filter};

use ae_base::tables::UniqueKey;
use lookups::conjuncts::{all_safe, parts};
use lookups::finding::{Lookup, lookup_in};
use sql_tree::bound::BoundCondition;
use std::alloc::{AllocError, Global};

/// The look-up of a statement on one table that has these unique keys and so many columns, if its
/// filter gives a key and no part of it can answer Overflow.
pub(crate) fn lookup_of_filter<'a>(
    alloc: Global,
    keys: &[UniqueKey],
    width: usize,
    filter: &'a Option<BoundCondition>,
) -> Result<Option<Lookup<'a>>, AllocError>
    ensures { IfOk result (λ found. option_map lookup_made found
        ≡ lookup_of_filter keys.now width (option_map condition_of filter.now)) }
{
    let parts = parts(alloc, filter)?;
    if !all_safe(parts.as_slice()) {
        return Ok(None);
    }
    lookup_in(alloc, 0, width, parts.as_slice(), keys)
}
