ghost use Rattle.std.specs.Prelude.{◌≡◌, ◌↔◌, ◌+◌, ◌<◌, ◌≤◌, ℕ, IsTrue};
ghost use Rattle.node_words.specs.descent.Parts.{EndsBy, IsEmpty, part_in, half_at, half_size};

use vw_cell::{Boxed, Cell};

/// The part of a box that lies in an octant whose side is `half`, told by its places there. The box
/// is told by its places in the octant's block, and may reach beyond it. A part without a cell has
/// a size 0.
pub fn part_of(half: u16, b: Boxed, octant: u8) -> Boxed
    requires half { half ≤ 2048 }
    requires octant { octant < 8 }
    ensures part { result ≡ part_in half b octant }
    ensures ends { EndsBy half result }
{
    let x = stretch_in(half, octant % 2, b.at.x, b.size.x);
    let y = stretch_in(half, octant / 2 % 2, b.at.y, b.size.y);
    let z = stretch_in(half, octant / 4 % 2, b.at.z, b.size.z);
    let at = Cell {
        x: x.at,
        y: y.at,
        z: z.at,
    };
    let size = Cell {
        x: x.size,
        y: y.size,
        z: z.size,
    };
    Boxed { at, size }
}

/// Whether the box has no cell.
pub fn is_empty(b: Boxed) -> bool
    ensures { IsTrue result ↔ IsEmpty b }
{
    b.size.x == 0 || b.size.y == 0 || b.size.z == 0
}

#[derive(Clone, Copy)]
struct Stretch {
    at: u16,
    size: u16,
}

// What of a stretch lies in the lower or the upper half, told from where the half begins.
fn stretch_in(half: u16, upper: u8, at: u16, size: u16) -> Stretch
    requires half { half ≤ 2048 }
    requires upper { upper < 2 }
    ensures at { result.at ≡ half_at half upper at }
    ensures size { result.size ≡ half_size half upper at size }
    ensures ends { result.at + result.size ≤ half }
{
    let from = place_in(half, upper, u32::from(at));
    let to = place_in(half, upper, u32::from(at) + u32::from(size));
    Stretch {
        at: from,
        size: to.saturating_sub(from),
    }
}

// Where a place lies in the lower or the upper half: at its beginning or its end, where it lies
// outside.
fn place_in(half: u16, upper: u8, place: u32) -> u16
    requires half { half ≤ 2048 }
    requires upper { upper < 2 }
    ensures place { result ≡ half_at half upper place }
    ensures within { result ≤ half }
{
    let from = if upper == 0 { 0 } else { u32::from(half) };
    let inside = place.saturating_sub(from).min(u32::from(half));
    inside as u16
}
