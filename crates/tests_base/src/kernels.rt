ghost use Rattle.std.specs.Prelude.{◌≡◌, ◌<◌};
ghost use Rattle.vw_cell.specs.Counts.{cell_at};

use node_words::{ball_bits, box_bits, window_bits};
use std::test::Fail;
use vw_cell::{Ball, Block, Boxed, Cell};

fn cell(x: u16, y: u16, z: u16) -> Cell
    ensures { result ≡ cell_at x y z }
{
    Cell { x, y, z }
}

// The cell of bit i of the leaf's block at this place.
fn cell_of(at: Cell, i: u16) -> Cell
    requires i { i < 64 }
    requires at { (at.x < 65532) × (at.y < 65532) × (at.z < 65532) }
{
    cell(at.x + i % 4, at.y + i / 4 % 4, at.z + i / 16)
}

// Least corners and sizes of boxes, and the leaf to see them in.
fn boxes() -> [(Cell, Cell, Cell); 12] {
    [
        (cell(0, 0, 0), cell(64, 64, 64), cell(8, 12, 16)),
        (cell(9, 12, 16), cell(1, 2, 3), cell(8, 12, 16)),
        (cell(11, 15, 19), cell(1, 1, 1), cell(8, 12, 16)),
        (cell(7, 13, 18), cell(2, 9, 1), cell(8, 12, 16)),
        (cell(10, 3, 0), cell(9, 10, 40), cell(8, 12, 16)),
        (cell(12, 12, 16), cell(4, 4, 4), cell(8, 12, 16)),
        (cell(4, 12, 16), cell(4, 4, 4), cell(8, 12, 16)),
        (cell(8, 12, 16), cell(4, 0, 4), cell(8, 12, 16)),
        (cell(1, 2, 3), cell(2, 1, 1), cell(0, 0, 0)),
        (
            cell(4093, 4094, 4095),
            cell(3, 2, 1),
            cell(4092, 4092, 4092),
        ),
        (
            cell(0, 0, 0),
            cell(65535, 65535, 65535),
            cell(65530, 0, 65531),
        ),
        (
            cell(65529, 65530, 65531),
            cell(65535, 2, 1),
            cell(65528, 65528, 65528),
        ),
    ]
}

#[test]
fn boxes_are_those_of_a_plain_loop(rt: HostRuntime) -> Result<(), Fail> {
    for (low, size, at) in boxes() {
        let b = Boxed { at: low, size };
        let bits = box_bits(b, Block { level: 0, at });
        for i in 0..64u16 {
            assert!(rt; at.x < 65532 && at.y < 65532 && at.z < 65532);
            assert_eq!(rt;
                bits >> i & 1 == 1,
                b.has(cell_of(at, i)),
                "bit {i} of {at:?} in {b:?}"
            );
        }
    }
    Ok(())
}

// Centres and radii of balls, and the leaf to see them in.
fn balls() -> [(Cell, u16, Cell); 13] {
    [
        (cell(9, 13, 17), 0, cell(8, 12, 16)),
        (cell(9, 13, 17), 1, cell(8, 12, 16)),
        (cell(8, 15, 19), 2, cell(8, 12, 16)),
        (cell(7, 12, 16), 1, cell(8, 12, 16)),
        (cell(7, 12, 16), 0, cell(8, 12, 16)),
        (cell(12, 16, 20), 2, cell(8, 12, 16)),
        (cell(10, 14, 18), 4, cell(8, 12, 16)),
        (cell(10, 14, 18), 3, cell(8, 12, 16)),
        (cell(40, 12, 16), 30, cell(8, 12, 16)),
        (cell(20, 30, 40), 32, cell(8, 12, 16)),
        (cell(0, 0, 0), 4095, cell(2364, 2364, 2364)),
        (cell(4095, 4095, 4095), 7, cell(4088, 4088, 4092)),
        (cell(65535, 0, 65535), 65535, cell(0, 8, 65528)),
    ]
}

#[test]
fn balls_are_those_of_a_plain_loop(rt: HostRuntime) -> Result<(), Fail> {
    for (centre, radius, at) in balls() {
        let b = Ball { centre, radius };
        let bits = ball_bits(b, Block { level: 0, at });
        for i in 0..64u16 {
            assert!(rt; at.x < 65532 && at.y < 65532 && at.z < 65532);
            assert_eq!(rt;
                bits >> i & 1 == 1,
                b.has(cell_of(at, i)),
                "bit {i} of {at:?} in {b:?}"
            );
        }
    }
    Ok(())
}

// Eight leaves with no pattern.
const LEAVES: [u64; 8] = [
    0x9E37_79B9_7F4A_7C15,
    0xBF58_476D_1CE4_E5B9,
    0x94D0_49BB_1331_11EB,
    0x2545_F491_4F6C_DD1D,
    0xD134_2543_DE82_EF95,
    0xDA94_2042_E4DD_58B5,
    0xC2B2_AE3D_27D4_EB4F,
    0x1656_67B1_9E37_79F9,
];

// The bit of the cell at this place of the 8 x 8 x 8.
fn bit_of_eight(x: u8, y: u8, z: u8) -> u64
    requires { (x < 8) × (y < 8) × (z < 8) }
{
    let leaf = LEAVES[usize::from(x / 4 + 2 * (y / 4) + 4 * (z / 4))];
    leaf >> (x % 4 + 4 * (y % 4) + 16 * (z % 4)) & 1
}

#[test]
fn windows_are_those_of_a_plain_loop(rt: HostRuntime) -> Result<(), Fail> {
    for dx in 0..4u8 {
        for dy in 0..4u8 {
            for dz in 0..4u8 {
                let bits = window_bits(&LEAVES, dx, dy, dz);
                for i in 0..64u8 {
                    let bit = bit_of_eight(i % 4 + dx, i / 4 % 4 + dy, i / 16 + dz);
                    assert_eq!(rt; bits >> i & 1, bit, "bit {i} at ({dx}, {dy}, {dz})");
                }
            }
        }
    }
    Ok(())
}
