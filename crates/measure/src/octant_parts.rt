ghost use Rattle.std.specs.Prelude.{◌≡◌, ◌<◌, ℕ};
ghost use Rattle.node_words.specs.descent.Parts.{part_in};

use vw_cell::{Boxed, Cell};

/// The part of a box in an octant, from those in the first octant and in the last: on each axis it
/// is as one of them.
pub(crate) fn either_part(first: Boxed, last: Boxed, octant: u8) -> Boxed
    requires { octant < 8 }
    ensures { (half : ℕ) (b : Boxed) → first ≡ part_in half b 0 → last ≡ part_in half b 7
        → result ≡ part_in half b octant }
{
    let (x, y, z) = (octant % 2, octant / 2 % 2, octant / 4 % 2);
    let at = Cell {
        x: either(x, first.at.x, last.at.x),
        y: either(y, first.at.y, last.at.y),
        z: either(z, first.at.z, last.at.z),
    };
    let size = Cell {
        x: either(x, first.size.x, last.size.x),
        y: either(y, first.size.y, last.size.y),
        z: either(z, first.size.z, last.size.z),
    };
    Boxed { at, size }
}

// What stands in the lower or the upper half.
fn either(upper: u8, low: u16, high: u16) -> u16
    requires { upper < 2 }
    ensures { (f : ℕ → ℕ) → low ≡ f 0 → high ≡ f 1 → result ≡ f upper }
{
    if upper == 0 { low } else { high }
}

ghost use Rattle.vw_cell.specs.declared.boxes.Boxed.{Boxed};
