//! Laws of numbered cells: functions that do nothing, whose contracts are the laws.

ghost use Rattle.first_seen.specs.Laws.{RenamedAreListedAlike, ListedAlikeAreRenamed, NumbersGoOn, ListingsGoOn, TablesAreByClass};
ghost use Rattle.first_seen.specs.Worked.{IsWorked};

/// Parts that are renamed have one listing.
pub fn renamed_are_listed_alike()
    ensures { RenamedAreListedAlike }
{}

/// Parts that have one listing are renamed.
pub fn listed_alike_are_renamed()
    ensures { ListedAlikeAreRenamed }
{}

/// A cell that was not seen gets the count of its class, and keeps it.
pub fn numbers_go_on()
    ensures { NumbersGoOn }
{}

/// A listing is made part by part, from the cells seen alone.
pub fn listings_go_on()
    ensures { ListingsGoOn }
{}

/// One set in order of insertion for each class has the numbers.
pub fn tables_are_by_class()
    ensures { TablesAreByClass }
{}

/// Numbers begin anew in each class, and a cell that comes again has the number that it had.
pub fn is_worked()
    ensures { IsWorked }
{}
