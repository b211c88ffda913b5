//! The law of keys with one value: a function that does nothing, whose contract is the law.

ghost use Rattle.single_value_laws.specs.Laws.{SingleValuesAreAlike};

use resolve::laws::bound_statements_are;

/// Where no text of a script gives a column key a second value, all values that a number of a key
/// ever has open to one key. So the laws with that premise hold of each such script.
pub fn single_values_are_alike()
    ensures { SingleValuesAreAlike }
{
    bound_statements_are();
}
