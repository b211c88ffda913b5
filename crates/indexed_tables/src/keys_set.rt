//! Whether an UPDATE sets a column of a unique key.

ghost use Rattle.std.specs.Prelude.{◌≡◌, map};
ghost use Rattle.std.specs.List.{list_any};
ghost use Rattle.sql_tree.specs.Bound.{assignment_of};
ghost use Rattle.indexed_tables.specs.Updates.{is_set, sets_a_key};
ghost use Rattle.unique_keys.specs.Indexes.{keys_of};

use ae_base::sameness::Same;
use sql_tree::bound::BoundAssignment;
use unique_keys::index::UniqueIndex;

/// Whether an assignment sets a column of one of the keys.
pub(crate) fn sets_a_key<K: Same>(
    indexes: &[UniqueIndex<K>],
    assignments: &[BoundAssignment],
) -> bool
    ensures { result ≡ sets_a_key (map assignment_of assignments.now) (keys_of indexes.now) }
{
    for index in indexes {
        if sets_one(index.places(), assignments) {
            return true;
        }
    }
    false
}

/// Whether an assignment sets one of these columns.
fn sets_one(places: &[usize], assignments: &[BoundAssignment]) -> bool
    ensures { result ≡ list_any (is_set (map assignment_of assignments.now)) places.now }
{
    for place in places {
        if is_set(assignments, *place) {
            return true;
        }
    }
    false
}

/// Whether an assignment sets the column of a place.
fn is_set(assignments: &[BoundAssignment], place: usize) -> bool
    ensures { result ≡ is_set (map assignment_of assignments.now) place }
{
    for assignment in assignments {
        if assignment.place == place {
            return true;
        }
    }
    false
}
