ghost use Rattle.std.specs.Prelude.{◌≡◌, ℕ, Bool, true, false, Option, None, IsTrue};
ghost use Rattle.edit_walk.specs.cells.Paints.{whole_of_old, whole_if, painted_bits};

use crate::cells::tasks::Whole;
use node_words::Name;

/// A block of which nothing changes.
pub fn old_whole(old: Option<Name>) -> Whole
    ensures { result ≡ whole_of_old old }
{
    match old {
        Some(n) => Whole::Old(n),
        None => Whole::Nothing,
    }
}

/// A block all of whose cells are set or cleared.
pub fn filled(set: bool) -> Whole
    ensures { result ≡ whole_if set }
{
    if set { Whole::All } else { Whole::Nothing }
}

/// A leaf's bits with those inside set or cleared.
pub fn paint(set: bool, old: u64, inside: u64) -> u64
    ensures { result ≡ painted_bits set old inside }
{
    if set { old | inside } else { old & !inside }
}

/// Whether cells are cleared of a block that has none.
pub fn clears_nothing(set: bool, old: Option<Name>) -> bool
    ensures { IsTrue result → (set ≡ false) × (old ≡ None) }
{
    match old {
        Some(_) => false,
        None => !set,
    }
}
