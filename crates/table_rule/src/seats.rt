ghost use Rattle.table_rule.specs.StepStatements.{NumbersAreTaken, RightsAreHandedOn};
ghost use Rattle.table_rule.specs.StepStatements.{SeatsAreJoined, TablesOpen};

/// Seats get their numbers one after another, while the table is begun.
pub fn seats_are_numbered()
    ensures number { NumbersAreTaken }
    ensures hand_on { RightsAreHandedOn }
{}

/// Seats are put together, when the table is closed.
pub fn seats_are_joined()
    ensures { SeatsAreJoined }
{}

/// A table begins with one seat.
pub fn tables_open()
    ensures { TablesOpen }
{}
