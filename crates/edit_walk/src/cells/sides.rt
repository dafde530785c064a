ghost use Rattle.std.specs.Prelude.{◌≡◌, ◌≤◌};
ghost use Rattle.vw_cell.specs.Places.{block_side};

use vw_cell::Cell;

/// The side of a block of this level, in cells.
pub fn side_of(level: u8) -> u32
    requires { level ≤ 10 }
    ensures value { result ≡ block_side level }
    ensures bound { (1 ≤ result) × (result ≤ 4096) }
{
    4 << level
}

/// A box of at most this size on each axis has few blocks alike, and to seek them costs more than
/// it saves.
const FEW: u16 = 64;

/// Whether many blocks may be alike in an edit of a box of this size.
pub fn is_large(size: Cell) -> bool {
    size.x > FEW || size.y > FEW || size.z > FEW
}
