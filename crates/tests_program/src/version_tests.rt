//! Versions of files: what is told, saved and seen of one, and two of them beside each other.
ghost use Rattle.std.specs.Prelude.{◌≤◌, ◌^◌, IfOk};
ghost use Rattle.vw_cell.specs.Places.{FitsAt};

use crate::calls::ONE;
use crate::look_tests::{FULL, SIXTEEN};
use dag_answers::{
    ask_version, version_changes, version_file, version_region, version_same, version_surface,
};
use dag_file::DagView;
use history_model::Question;
use std::alloc::Global;
use std::test::Fail;
use transcript::Answer;
use vox_read::Voxel;
use vw_cell::{Boxed, Cell};

// The file's view.
fn opened<'f>(alloc: Global, bytes: &'f [u8]) -> Result<DagView<'f>, Fail> {
    match DagView::read(alloc, bytes) {
        Ok(view) => Ok(view),
        Err(_) => Err("a file of versions".into()),
    }
}

// A box, where it lies in the file's worlds and has at most 256 cells a side.
fn placed(view: &DagView<'_>, b: Boxed) -> Result<Boxed, Fail>
    ensures inside { IfOk result (λ b. FitsAt b.at b.size (2 ^ view.now.side)) }
    ensures small { IfOk result
        (λ b. (b.size.x ≤ 256) × (b.size.y ≤ 256) × (b.size.z ≤ 256)) }
{
    if b.size.x > 256 || b.size.y > 256 || b.size.z > 256 {
        return Err("a box of 256 cells a side".into());
    }
    match Boxed::new(b.at, b.size, view.side()) {
        Some(b) => Ok(b),
        None => Err("a box of the file's worlds".into()),
    }
}

const ORIGIN: Cell = Cell { x: 0, y: 0, z: 0 };

const ONE_CELL: Cell = Cell { x: 1, y: 1, z: 1 };

/// Versions of the file of 16 cells that has 0, 2 and 5, and the least box of all cells that
/// differ. Version 0 has (4, 4, 4), (0, 8, 0) and (5, 12, 4); version 2 x of 1 and 5, y and z of 0
/// and 4; version 5 x of 1 and 5, y and z of 8 and 12, and the cell (12, 12, 12).
const CHANGED: &[(u32, u32, Option<Option<Boxed>>)] = &[
    (
        0,
        2,
        Some(Some(Boxed {
            at: ORIGIN,
            size: Cell { x: 6, y: 13, z: 5 },
        })),
    ),
    (
        5,
        0,
        Some(Some(Boxed {
            at: Cell { x: 0, y: 4, z: 0 },
            size: Cell { x: 13, y: 9, z: 13 },
        })),
    ),
    (2, 2, Some(None)),
    (2, 1, None),
    (1, 2, None),
];

// Whether two versions differ just in that box, and are then the same exactly where there is none.
fn differ_in(view: &mut DagView<'_>, a: u32, b: u32, least: Option<Option<Boxed>>) -> bool {
    let told = version_changes(view, a, b);
    let same = version_same(view, a, b);
    let wanted = match least {
        Some(None) => Some(true),
        Some(Some(_)) => Some(false),
        None => None,
    };
    told == least && same == wanted
}

#[test]
fn two_versions_differ(rt: HostRuntime) -> Result<(), Fail> {
    let mut view = opened(rt.alloc(), &SIXTEEN)?;
    for &(a, b, least) in CHANGED {
        if !differ_in(&mut view, a, b, least) {
            return Err(Fail::new(format_args!("versions {a} and {b}")));
        }
    }
    Ok(())
}

#[test]
fn a_version_is_asked(rt: HostRuntime) -> Result<(), Fail> {
    let mut view = opened(rt.alloc(), &SIXTEEN)?;
    let bounds = Boxed {
        at: Cell { x: 1, y: 0, z: 0 },
        size: Cell { x: 5, y: 5, z: 5 },
    };
    let told = ask_version(&mut view, 2, Question::Bounds);
    let missing = ask_version(&mut view, 3, Question::Bounds);
    assert!(rt; told == Some(Answer::Extent(Some(bounds))) && missing.is_none());
    Ok(())
}

const LAST: Boxed = Boxed {
    at: Cell {
        x: 12,
        y: 12,
        z: 12,
    },
    size: ONE_CELL,
};

const CORNER: Boxed = Boxed {
    at: Cell { x: 7, y: 0, z: 0 },
    size: ONE_CELL,
};

const TWO_CELLS: Boxed = Boxed {
    at: ORIGIN,
    size: Cell { x: 2, y: 1, z: 1 },
};

const INNER: Boxed = Boxed {
    at: Cell { x: 3, y: 3, z: 3 },
    size: Cell { x: 2, y: 2, z: 2 },
};

/// Files, their versions, and boxes of one cell that is set, so that their file is that of a model
/// of one cell.
const SAVED: &[(&[u8], u32, Boxed, Option<&[u8]>)] = &[
    (&SIXTEEN, 5, LAST, Some(&ONE)),
    (&FULL, 1, CORNER, Some(&ONE)),
    (&FULL, 2, CORNER, None),
];

// Whether that is the file of the box, where there is the version.
fn is_saved(
    alloc: Global,
    bytes: &[u8],
    version: u32,
    b: Boxed,
    wanted: Option<&[u8]>,
) -> Result<bool, Fail> {
    let mut view = opened(alloc, bytes)?;
    let b = placed(&view, b)?;
    match version_file(alloc, &mut view, version, b) {
        None => Ok(wanted.is_none()),
        Some(Ok(file)) => Ok(wanted == Some(file.as_slice())),
        Some(Err(_)) => Err("memory".into()),
    }
}

#[test]
fn boxes_of_versions_are_saved(rt: HostRuntime) -> Result<(), Fail> {
    for &(bytes, version, b, wanted) in SAVED {
        if !is_saved(rt.alloc(), bytes, version, b, wanted)? {
            return Err(Fail::new(format_args!("the box of {version} at {:?}", b.at)));
        }
    }
    Ok(())
}

/// Files, their versions, boxes, and the cells of them that can be seen. A bare side is 1 at the
/// left, 2 at the right, then 4 and 8, and 16 and 32, on the other axes; behind the world all is.
const SEEN: &[(&[u8], u32, Boxed, Option<&[Voxel]>)] = &[
    (
        &FULL,
        1,
        TWO_CELLS,
        Some(&[
            Voxel {
                x: 0,
                y: 0,
                z: 0,
                colour: 21,
            },
            Voxel {
                x: 1,
                y: 0,
                z: 0,
                colour: 20,
            },
        ]),
    ),
    (
        &FULL,
        1,
        CORNER,
        Some(&[Voxel {
            x: 0,
            y: 0,
            z: 0,
            colour: 22,
        }]),
    ),
    (&FULL, 1, INNER, Some(&[])),
    (
        &SIXTEEN,
        5,
        LAST,
        Some(&[Voxel {
            x: 0,
            y: 0,
            z: 0,
            colour: 63,
        }]),
    ),
    (&SIXTEEN, 1, LAST, None),
];

// Whether those are the cells of the box that can be seen, where there is the version.
fn is_seen(
    alloc: Global,
    bytes: &[u8],
    version: u32,
    b: Boxed,
    wanted: Option<&[Voxel]>,
) -> Result<bool, Fail> {
    let mut view = opened(alloc, bytes)?;
    let b = placed(&view, b)?;
    match version_surface(alloc, &mut view, version, b) {
        None => Ok(wanted.is_none()),
        Some(Ok(voxels)) => Ok(wanted == Some(voxels.as_slice())),
        Some(Err(_)) => Err("memory".into()),
    }
}

#[test]
fn sides_of_versions_are_seen(rt: HostRuntime) -> Result<(), Fail> {
    for &(bytes, version, b, wanted) in SEEN {
        if !is_seen(rt.alloc(), bytes, version, b, wanted)? {
            return Err(Fail::new(format_args!("the box of {version} at {:?}", b.at)));
        }
    }
    Ok(())
}

/// Versions of the file of 8 cells, boxes, and how many clear cells of the box are joined with its
/// first one, with the length of their file: all of version 0, and none of version 1.
const JOINED: &[(u32, Boxed, Option<(u32, usize)>)] = &[
    (0, INNER, Some((8, 60 + 32))),
    (0, CORNER, Some((1, 60 + 4))),
    (1, INNER, Some((0, 60))),
    (2, INNER, None),
];

// How many cells the region of the box's first cell has, and how long its file is, where there is
// the version.
fn region_told(alloc: Global, version: u32, b: Boxed) -> Result<Option<(u32, usize)>, Fail> {
    let mut view = opened(alloc, &FULL)?;
    let b = placed(&view, b)?;
    if !b.has(b.at) {
        return Err("a cell of the box".into());
    }
    match version_region(alloc, &mut view, version, b, b.at) {
        None => Ok(None),
        Some(Ok(region)) => Ok(Some((region.cells, region.file.len()))),
        Some(Err(_)) => Err("memory".into()),
    }
}

#[test]
fn regions_of_versions_are_told(rt: HostRuntime) -> Result<(), Fail> {
    for &(version, b, wanted) in JOINED {
        let told = region_told(rt.alloc(), version, b)?;
        if told != wanted {
            return Err(Fail::new(format_args!("the box of {version} at {:?}: {told:?}", b.at)));
        }
    }
    Ok(())
}
