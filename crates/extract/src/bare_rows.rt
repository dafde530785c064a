ghost use Rattle.std.specs.Prelude.{◌≡◌, ◌*◌, ◌/◌, ◌%◌, ◌^◌, ◌<◌, ◌≤◌};
ghost use Rattle.extract.specs.BareLayers.{TellsRow, spread};

use crate::bare_layers::BareLeaf;

/// The bare sides of the four cells of a row of a leaf, a byte for each.
#[inline(always)]
#[tactic(auto, using(crate::proofs::RowLaws::row_told))]
pub(crate) fn row_sides(leaf: BareLeaf, y: u16, z: u16) -> u64
    requires y { y < 4 }
    requires z { z < 4 }
    ensures { TellsRow result leaf y z }
{
    let row = 4 * y + 16 * z;
    let low = spread(leaf.low_x >> row) + 2 * spread(leaf.high_x >> row);
    let middle = 4 * spread(leaf.low_y >> row) + 8 * spread(leaf.high_y >> row);
    let high = 16 * spread(leaf.low_z >> row) + 32 * spread(leaf.high_z >> row);
    low + middle + high
}

// The first four bits of a word, a byte for each: four copies lie seven bits apart, and one bit of
// each is kept.
#[inline(always)]
#[tactic(auto, using(crate::proofs::RowLaws::spread_told, crate::proofs::RowLaws::spread_small))]
fn spread(word: u64) -> u64
    ensures spread { result ≡ spread word }
    ensures small { result ≤ 16843009 }
{
    word % 16 * 2113665 & 16843009
}

/// The bare sides of one of the four.
#[inline(always)]
pub(crate) fn sides_in(row: u64, x: u16) -> u8
    requires { x < 4 }
    ensures { result ≡ row / 2 ^ (8 * x) % 256 }
{
    ((row >> (8 * x)) % 256) as u8
}
