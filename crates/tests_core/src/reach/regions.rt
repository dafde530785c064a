use crate::reach::floods::{Region, region_in};
use std::alloc::Global;
use std::test::Fail;
use testkit::Drawing;
use vw_cell::Cell;

/// Where a model is stamped: past the corner of the world, and not at a block's corner.
const AT: Cell = Cell { x: 3, y: 6, z: 1 };

fn at_place(c: Cell) -> Cell {
    Cell {
        x: c.x.saturating_add(AT.x),
        y: c.y.saturating_add(AT.y),
        z: c.z.saturating_add(AT.z),
    }
}

// The region of a place of a model.
fn region_of(alloc: Global, model: &Drawing, from: Cell) -> Option<Region> {
    let stencil = model.stencil(alloc)?;
    region_in(alloc, &stencil, AT, at_place(from))
}

// The number of its cells, and the length of its file.
fn told(alloc: Global, model: &Drawing, from: Cell) -> Option<(u32, usize)> {
    let region = region_of(alloc, model, from)?;
    Some((region.cells, region.file.len()))
}

#[test]
fn a_wall_parts_a_row(rt: HostRuntime) -> Result<(), Fail> {
    let alloc = rt.alloc();
    let wall = Drawing {
        size: [3, 1, 1],
        voxels: Vec::from_slice(alloc, &[[1, 0, 0, 1]])?,
    };
    for &(x, want) in &[
        (0, Some((1, 64))),
        (1, Some((0, 60))),
        (2, Some((1, 64))),
        (3, None),
    ] {
        assert_eq!(rt;
            told(alloc, &wall, Cell { x, y: 0, z: 0 }),
            want,
            "from {x}"
        );
    }
    Ok(())
}

// All cells of 3 x 3 x 3 but the middle one.
fn hollow(alloc: Global) -> Result<Drawing, Fail> {
    let mut voxels = Vec::new(alloc);
    for n in 0..27u8 {
        if n != 13 {
            voxels.push([n % 3, n / 3 % 3, n / 9, 1])?;
        }
    }
    Ok(Drawing {
        size: [3, 3, 3],
        voxels,
    })
}

#[test]
fn a_hollow_is_a_region_of_its_own(rt: HostRuntime) -> Result<(), Fail> {
    let alloc = rt.alloc();
    let model = hollow(alloc)?;
    let middle = Cell { x: 1, y: 1, z: 1 };
    assert_eq!(rt; told(alloc, &model, middle), Some((1, 64)));
    let corner = Cell { x: 0, y: 0, z: 0 };
    assert_eq!(rt; told(alloc, &model, corner), Some((0, 60)));
    Ok(())
}
