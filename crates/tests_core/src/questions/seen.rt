//! What can be seen of a box, and where two worlds differ: rows worked by hand.

use crate::questions::rows::{any_stencil, empty_world};
use edit_stamp::Stencil;
use history_model::Act;
use std::alloc::Global;
use std::test::Fail;
use testkit::StoredWorld;
use vox_read::Voxel;
use vw_cell::{Boxed, Cell};

// A box by its corner and its size.
fn boxed(row: [u16; 6]) -> Boxed {
    let [x, y, z, along, across, high] = row;
    let at = Cell { x, y, z };
    let size = Cell {
        x: along,
        y: across,
        z: high,
    };
    Boxed { at, size }
}

// Sets the cells of some boxes; whether that went.
fn fill_rows(world: &mut StoredWorld, boxes: &[[u16; 6]], stencil: &Stencil) -> bool {
    for row in boxes {
        if world.edit(&Act::Fill(boxed(*row)), stencil).is_err() {
            return false;
        }
    }
    true
}

/// Boxes that are set in a world of side 8, a box, and its cells that can be seen, from the box's
/// corner on, each with its bare sides: 1 is -x, 2 is +x, 4 is -y, 8 is +y, 16 is -z, 32 is +z.
const SURFACES: &[(&[[u16; 6]], [u16; 6], &[[u8; 4]])] = &[
    (&[], [0, 0, 0, 8, 8, 8], &[]),
    (&[[3, 3, 3, 1, 1, 1]], [0, 0, 0, 8, 8, 8], &[[3, 3, 3, 63]]),
    // two cells that touch, of two leaves
    (
        &[[3, 3, 3, 2, 1, 1]],
        [2, 3, 3, 6, 5, 5],
        &[[1, 0, 0, 61], [2, 0, 0, 62]],
    ),
    // at the world's border the outside is beside a cell
    (&[[0, 0, 0, 8, 8, 8]], [0, 0, 0, 1, 1, 1], &[[0, 0, 0, 21]]),
    (
        &[[0, 0, 0, 8, 8, 8]],
        [7, 7, 6, 1, 1, 2],
        &[[0, 0, 0, 10], [0, 0, 1, 42]],
    ),
    (&[[0, 0, 0, 8, 8, 8]], [1, 1, 1, 6, 6, 6], &[]),
    // 26 of the 27 cells of a cube: corners, edges and faces
    (
        &[[2, 2, 2, 3, 3, 3]],
        [2, 2, 2, 3, 3, 3],
        &[
            [0, 0, 0, 21],
            [1, 0, 0, 20],
            [2, 0, 0, 22],
            [0, 1, 0, 17],
            [1, 1, 0, 16],
            [2, 1, 0, 18],
            [0, 2, 0, 25],
            [1, 2, 0, 24],
            [2, 2, 0, 26],
            [0, 0, 1, 5],
            [1, 0, 1, 4],
            [2, 0, 1, 6],
            [0, 1, 1, 1],
            [2, 1, 1, 2],
            [0, 2, 1, 9],
            [1, 2, 1, 8],
            [2, 2, 1, 10],
            [0, 0, 2, 37],
            [1, 0, 2, 36],
            [2, 0, 2, 38],
            [0, 1, 2, 33],
            [1, 1, 2, 32],
            [2, 1, 2, 34],
            [0, 2, 2, 41],
            [1, 2, 2, 40],
            [2, 2, 2, 42],
        ],
    ),
    // a box that cuts the cube: beside its cells stand set ones outside of it
    (
        &[[2, 2, 2, 3, 3, 3]],
        [3, 2, 2, 1, 3, 3],
        &[
            [0, 0, 0, 20],
            [0, 1, 0, 16],
            [0, 2, 0, 24],
            [0, 0, 1, 4],
            [0, 2, 1, 8],
            [0, 0, 2, 36],
            [0, 1, 2, 32],
            [0, 2, 2, 40],
        ],
    ),
];

fn are_seen(voxels: &[Voxel], cells: &[[u8; 4]]) -> bool {
    if voxels.len() != cells.len() {
        return false;
    }
    for (voxel, cell) in voxels.iter().zip(cells) {
        let &[x, y, z, colour] = cell;
        if *voxel != (Voxel { x, y, z, colour }) {
            return false;
        }
    }
    true
}

// Whether these cells of the box can be seen.
fn shows(alloc: Global, world: &mut StoredWorld, b: Boxed, cells: &[[u8; 4]]) -> bool {
    let mut voxels: Vec<Voxel> = Vec::new(alloc);
    world.surface(b, &mut voxels) && are_seen(voxels.as_slice(), cells)
}

fn fill_beside(alloc: Global, world: &mut StoredWorld, boxes: &[[u16; 6]]) -> bool {
    match any_stencil(alloc) {
        Some(stencil) => fill_rows(world, boxes, &stencil),
        None => false,
    }
}

#[test]
fn boxes_show_these_cells(rt: HostRuntime) -> Result<(), Fail> {
    for &(boxes, b, cells) in SURFACES {
        let mut world = empty_world(rt.alloc(), 8, 16)?;
        assert!(rt; fill_beside(rt.alloc(), &mut world, boxes));
        assert!(rt; shows(rt.alloc(), &mut world, boxed(b), cells), "{b:?}");
    }
    Ok(())
}

/// An edit of a box: its cells are set, cleared, or copied to a place.
#[derive(Clone, Copy, Debug, PartialEq, Eq)]
enum Edit {
    Set,
    Clear,
    CopyTo(u16, u16, u16),
}

/// Boxes that are set in a world of side 64, an edit of a box, and the least box of what it
/// changes.
const CHANGES: &[(&[[u16; 6]], Edit, [u16; 6], Option<[u16; 6]>)] = &[
    (&[], Edit::Set, [3, 4, 5, 1, 1, 1], Some([3, 4, 5, 1, 1, 1])),
    // what is set already doesn't change
    (&[[3, 4, 5, 1, 1, 1]], Edit::Set, [3, 4, 5, 1, 1, 1], None),
    (&[], Edit::Clear, [0, 0, 0, 64, 64, 64], None),
    (
        &[[3, 4, 5, 1, 1, 1]],
        Edit::Set,
        [3, 4, 4, 2, 1, 2],
        Some([3, 4, 4, 2, 1, 2]),
    ),
    (
        &[[0, 0, 0, 64, 64, 64]],
        Edit::Clear,
        [31, 0, 63, 2, 1, 1],
        Some([31, 0, 63, 2, 1, 1]),
    ),
    // a copy far away
    (
        &[[1, 1, 1, 2, 1, 1]],
        Edit::CopyTo(40, 48, 56),
        [0, 0, 0, 4, 4, 4],
        Some([41, 49, 57, 2, 1, 1]),
    ),
    // a world that is emptied
    (
        &[[1, 2, 3, 1, 1, 1], [60, 50, 40, 2, 2, 2]],
        Edit::Clear,
        [0, 0, 0, 64, 64, 64],
        Some([1, 2, 3, 61, 50, 39]),
    ),
];

fn act_of(edit: Edit, b: Boxed) -> Act {
    match edit {
        Edit::Set => Act::Fill(b),
        Edit::Clear => Act::Erase(b),
        Edit::CopyTo(x, y, z) => Act::Copy(b, Cell { x, y, z }),
    }
}

// Whether the act changes cells of just this box.
fn changes(
    world: &mut StoredWorld,
    boxes: &[[u16; 6]],
    act: &Act,
    found: Option<Boxed>,
    stencil: &Stencil,
) -> bool {
    if !fill_rows(world, boxes, stencil) {
        return false;
    }
    match world.changed_by(act, stencil) {
        Ok(changed) => changed == found,
        Err(_) => false,
    }
}

fn changes_so(
    alloc: Global,
    boxes: &[[u16; 6]],
    act: &Act,
    found: Option<Boxed>,
) -> Result<bool, Fail> {
    let mut world = empty_world(alloc, 64, 64)?;
    let stencil = any_stencil(alloc).ok_or("a stencil")?;
    Ok(changes(&mut world, boxes, act, found, &stencil))
}

fn some_boxed(row: Option<[u16; 6]>) -> Option<Boxed> {
    match row {
        Some(row) => Some(boxed(row)),
        None => None,
    }
}

#[test]
fn edits_change_these_boxes(rt: HostRuntime) -> Result<(), Fail> {
    for &(boxes, edit, b, found) in CHANGES {
        let act = act_of(edit, boxed(b));
        let same = changes_so(rt.alloc(), boxes, &act, some_boxed(found))?;
        assert!(rt; same, "{edit:?} {b:?}");
    }
    Ok(())
}
