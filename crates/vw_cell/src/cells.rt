ghost use Rattle.std.specs.Prelude.{◌↔◌, ◌^◌, IsTrue};

use crate::sides::Side;

/// A place, or a size, in cells on each axis. `z` is the direction of gravity.
#[derive(Clone, Copy, Debug, PartialEq, Eq)]
pub struct Cell {
    pub x: u16,
    pub y: u16,
    pub z: u16,
}

impl Cell {
    ghost use Rattle.vw_cell.specs.Places.{IsInWorld};

    /// Whether the place lies in the world of this side.
    pub fn is_in_world(&self, side: Side) -> bool
        ensures { IsTrue result ↔ IsInWorld (2 ^ side) self.now }
    {
        let side = side.cells();
        u32::from(self.x) < side && u32::from(self.y) < side && u32::from(self.z) < side
    }
}
