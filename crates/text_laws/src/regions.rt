//! Laws of the run of a load: what its regions count.
//!
//! Nothing is called here: each law is a clause of a function with an empty body. They speak of the
//! load's scripts (`gen_load`, `load_laws`) and of any run that agrees with them; what they say
//! stands in `specs/regions/Statements.antt`.

ghost use Rattle.text_laws.specs.regions.Statements.{RegionsAreCounted, LoadsAreCounted};

use conformance::sessions_agree_beside_others;

/// A law: where every change of a load was accepted, each script's last line tells how many cells
/// of its region the script's changes alone make of the empty world.
pub fn regions_are_counted()
    ensures { RegionsAreCounted }
{
    sessions_agree_beside_others();
}

/// A law: so it is of the load of every number.
pub fn loads_are_counted()
    ensures { LoadsAreCounted }
{
    sessions_agree_beside_others();
}
