ghost use Rattle.std.specs.Prelude.{◌≡◌, ◌↔◌, IsTrue};

use crate::shapes::Name;
use vw_cell::{Boxed, Cell};

/// Whether both are one name, or both none.
pub fn same_names(a: Option<Name>, b: Option<Name>) -> bool
    ensures { IsTrue result ↔ (a ≡ b) }
{
    match (a, b) {
        (None, None) => true,
        (Some(m), Some(n)) => m.level == n.level && m.bucket == n.bucket && m.slot == n.slot,
        _ => false,
    }
}

/// Whether both are one place.
pub fn same_cells(a: Cell, b: Cell) -> bool
    ensures { IsTrue result ↔ (a ≡ b) }
{
    a.x == b.x && a.y == b.y && a.z == b.z
}

/// Whether both are one box.
pub fn same_boxes(a: Boxed, b: Boxed) -> bool
    ensures { IsTrue result ↔ (a ≡ b) }
{
    same_cells(a.at, b.at) && same_cells(a.size, b.size)
}
