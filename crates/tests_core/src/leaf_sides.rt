use measure::{across, next_bits, stays};
use std::test::Fail;
use vw_cell::Direction;

// A direction, cells of a leaf, cells of the leaf beside it, and which cells have one of these next to
// them. Bit x + 4 * y + 16 * z is that of a cell.
fn rows() -> [(Direction, u64, u64, u64); 7] {
    [
        (Direction::LowX, 1 << 57, 1 << 3, 1 << 58 | 1),
        (Direction::HighX, 1 << 57, 1 << 4, 1 << 56 | 1 << 7),
        (Direction::LowY, 1 << 57, 1 << 14, 1 << 61 | 1 << 2),
        (Direction::HighY, 1 << 57, 1 << 16, 1 << 53 | 1 << 28),
        (Direction::LowZ, 1 << 5, 1 << 63, 1 << 21 | 1 << 15),
        (Direction::HighZ, 1 << 57, 1 << 10, 1 << 41 | 1 << 58),
        (Direction::LowX, 1 << 3, 1 << 2, 0),
    ]
}

#[test]
fn cells_next_to_those_of_two_leaves_are_told(rt: HostRuntime) -> Result<(), Fail> {
    for (direction, bits, beside, next) in rows() {
        assert_eq!(rt;
            next_bits(direction, bits, beside),
            next,
            "{bits:x} beside {beside:x}"
        );
    }
    Ok(())
}

// A direction, an octant, the octant beside it there, and whether that is one of the same block.
const OCTANTS: [(Direction, u8, u8, bool); 7] = [
    (Direction::LowX, 0, 1, false),
    (Direction::HighX, 0, 1, true),
    (Direction::LowY, 6, 4, true),
    (Direction::HighY, 5, 7, true),
    (Direction::LowZ, 5, 1, true),
    (Direction::HighZ, 5, 1, false),
    (Direction::HighX, 7, 6, false),
];

#[test]
fn an_octant_lies_beside_one_in_each_direction(rt: HostRuntime) -> Result<(), Fail> {
    for (direction, octant, beside, same) in OCTANTS {
        assert_eq!(rt; across(direction, octant), beside, "beside octant {octant}");
        assert_eq!(rt;
            stays(direction, octant),
            same,
            "whether it is in the block of {octant}"
        );
    }
    Ok(())
}
