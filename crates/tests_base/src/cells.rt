ghost use Rattle.std.specs.Prelude.{◌≡◌};
ghost use Rattle.vw_cell.specs.Counts.{cell_at};

use std::test::Fail;
use vw_cell::{Ball, Block, Boxed, Cell, Side};

fn cell(x: u16, y: u16, z: u16) -> Cell
    ensures { result ≡ cell_at x y z }
{
    Cell { x, y, z }
}

#[test]
fn sides_are_powers_of_two(rt: HostRuntime) -> Result<(), Fail> {
    for (cells, exponent, root_level) in [(4, 2, 0), (8, 3, 1), (256, 8, 6), (4096, 12, 10)] {
        let side = Side::new(cells).ok_or("a side")?;
        assert_eq!(rt; side.cells(), cells);
        assert_eq!(rt; side.exponent(), exponent);
        assert_eq!(rt; side.root_level(), root_level);
    }
    for cells in [0, 1, 2, 3, 5, 12, 4095, 8192] {
        assert!(rt; Side::new(cells).is_none(), "at {cells}");
    }
    Ok(())
}

#[test]
fn boxes_stay_in_the_world(rt: HostRuntime) -> Result<(), Fail> {
    let side = Side::new(8).ok_or("a side")?;
    let whole = Boxed::new(cell(0, 0, 0), cell(8, 8, 8), side).ok_or("a box")?;
    assert!(rt; whole.has(cell(7, 0, 7)));
    let corner = Boxed::new(cell(3, 3, 3), cell(2, 1, 5), side).ok_or("a box")?;
    assert!(rt;
        corner.has(cell(4, 3, 7)) && !corner.has(cell(5, 3, 7)) && !corner.has(cell(2, 3, 7))
    );
    for (at, size) in [
        (cell(0, 0, 0), cell(0, 1, 1)),
        (cell(7, 0, 0), cell(2, 1, 1)),
        (cell(0, 0, 8), cell(1, 1, 1)),
    ] {
        assert!(rt; Boxed::new(at, size, side).is_none());
    }
    Ok(())
}

#[test]
fn balls_have_their_cells(rt: HostRuntime) -> Result<(), Fail> {
    let side = Side::new(16).ok_or("a side")?;
    for (centre, radius, want) in [
        (cell(4, 4, 4), 0, 1),
        (cell(4, 4, 4), 1, 7),
        (cell(4, 4, 4), 2, 33),
        (cell(0, 0, 0), 2, 11),
    ] {
        let ball = Ball::new(centre, radius, side).ok_or("a ball")?;
        let mut cells: u32 = 0;
        for x in 0..16u16 {
            for y in 0..16u16 {
                for z in 0..16u16 {
                    if ball.has(cell(x, y, z)) {
                        cells = cells.saturating_add(1);
                    }
                }
            }
        }
        assert_eq!(rt; cells, want, "radius {radius}");
    }
    assert!(rt; Ball::new(cell(16, 0, 0), 1, side).is_none());
    assert!(rt; Ball::new(cell(15, 0, 0), 4096, side).is_none());
    Ok(())
}

#[test]
fn blocks_meet_boxes(rt: HostRuntime) {
    let block = Block {
        level: 1,
        at: cell(8, 0, 0),
    };
    assert_eq!(rt;
        block.child(1),
        Block {
            level: 0,
            at: cell(12, 0, 0)
        }
    );
    assert_eq!(rt;
        block.child(6),
        Block {
            level: 0,
            at: cell(8, 4, 4)
        }
    );
    for (x, width, meets, holds) in [
        (0, 8, false, false),
        (0, 9, true, false),
        (8, 8, true, true),
        (15, 1, true, false),
        (16, 4, false, false),
    ] {
        let part = Boxed {
            at: cell(x, 0, 0),
            size: cell(width, 8, 8),
        };
        assert_eq!(rt; part.meets(block), meets, "meets at {x}");
        assert_eq!(rt; part.holds_block(block), holds, "holds at {x}");
    }
}
