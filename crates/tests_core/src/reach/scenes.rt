use crate::reach::nodes::{Chunks, Frame};
use std::alloc::Global;
use std::test::Fail;
use vox_read::{Voxel, read_models};
use vox_scene::{Scene, SceneFault, read_scene, stamp_text};
use vw_cell::Cell;

// The scene of a file whose models can be read.
fn scene_in(alloc: Global, bytes: &[u8]) -> Option<Result<Scene, SceneFault>> {
    if bytes.len() > 1_000_000 {
        return None;
    }
    let Ok(_models) = read_models(alloc, bytes) else {
        return None;
    };
    Some(read_scene(alloc, bytes))
}

// The scene of these chunks, with the models that it has to have.
fn scene_of(alloc: Global, chunks: &Chunks) -> Result<Scene, Fail> {
    let file = chunks.file()?;
    let found = scene_in(alloc, file.as_slice()).ok_or("models")?;
    Ok(found?)
}

// The number and the place of the fault of these chunks.
fn fault_of(alloc: Global, chunks: &Chunks) -> Result<(u8, u32), Fail> {
    let file = chunks.file()?;
    match scene_in(alloc, file.as_slice()).ok_or("models")? {
        Ok(_) => Ok((0, 0)),
        Err(fault) => Ok((fault.kind(), fault.at())),
    }
}

const UNMOVED: &[Frame<'_>] = &[&[]];

// A bar of two cells in a model of 3 x 1 x 1.
fn bar(alloc: Global) -> Result<Chunks, Fail> {
    let mut chunks = Chunks::new(alloc);
    chunks.model([3, 1, 1], &[[0, 0, 0, 7], [1, 0, 0, 8]])?;
    Ok(chunks)
}

// The bar, moved as the first frame says.
fn bar_in(alloc: Global, frames: &[Frame<'_>]) -> Result<Chunks, Fail> {
    let mut chunks = bar(alloc)?;
    chunks.mover(0, 1, frames)?;
    chunks.shape(1, &[0])?;
    Ok(chunks)
}

// The bar in a group of two movers, of which the second turns and moves it.
fn two_bars(alloc: Global) -> Result<Chunks, Fail> {
    let mut chunks = bar(alloc)?;
    chunks.group(0, &[1, 2])?;
    chunks.mover(1, 3, UNMOVED)?;
    chunks.mover(2, 3, &[&[("_r", "105"), ("_t", "10 0 0")]])?;
    chunks.shape(3, &[0])?;
    Ok(chunks)
}

// Whether the scene has this side, and this script stamps it.
fn is_told(alloc: Global, scene: &Scene, side: u32, script: &[u8]) -> Result<bool, Fail> {
    let text = stamp_text(alloc, scene.places.as_slice())?;
    Ok(scene.side.cells() == side && text.as_slice() == script)
}

// Whether the model of this number has this size and these voxels, each a place and a colour.
fn has_model(scene: &Scene, number: usize, size: Cell, voxels: &[[u8; 4]]) -> bool {
    match scene.models.list.get(number) {
        Some(model) => model.size == size && are_voxels(model.voxels.as_slice(), voxels),
        None => false,
    }
}

fn are_voxels(voxels: &[Voxel], want: &[[u8; 4]]) -> bool {
    if voxels.len() != want.len() {
        return false;
    }
    for (voxel, &[x, y, z, colour]) in voxels.iter().zip(want) {
        if *voxel != (Voxel { x, y, z, colour }) {
            return false;
        }
    }
    true
}

#[test]
fn a_turned_bar_stands_beside_itself(rt: HostRuntime) -> Result<(), Fail> {
    let alloc = rt.alloc();
    let scene = scene_of(alloc, &two_bars(alloc)?)?;
    assert!(rt; is_told(alloc, &scene, 16, b"stamp 0 0 0 1\nstamp 1 11 0 0\n")?);
    let turned = [[0, 0, 1, 8], [0, 0, 2, 7]];
    assert!(rt; has_model(&scene, 1, Cell { x: 1, y: 1, z: 3 }, &turned));
    Ok(())
}

// The bar, and a model of another size, of one cell.
fn bar_and_cell(alloc: Global) -> Result<Chunks, Fail> {
    let mut chunks = bar(alloc)?;
    chunks.model([5, 1, 2], &[[4, 0, 1, 9]])?;
    Ok(chunks)
}

#[test]
fn models_without_a_node_stand_at_the_corner(rt: HostRuntime) -> Result<(), Fail> {
    let alloc = rt.alloc();
    let scene = scene_of(alloc, &bar_and_cell(alloc)?)?;
    assert!(rt; is_told(alloc, &scene, 8, b"stamp 0 0 0 0\nstamp 1 0 0 0\n")?);
    Ok(())
}

// What one frame makes of the bar: its size and its voxels.
const FRAMES: &[(&[Frame<'_>], [u16; 3], &[[u8; 4]])] = &[
    (&[], [3, 1, 1], &[[0, 0, 0, 7], [1, 0, 0, 8]]),
    (
        &[&[("_t", "5 0 0")]],
        [3, 1, 1],
        &[[0, 0, 0, 7], [1, 0, 0, 8]],
    ),
    // the first of two equal keys, and the first frame alone
    (
        &[&[("_r", "4"), ("_r", "20")]],
        [3, 1, 1],
        &[[0, 0, 0, 7], [1, 0, 0, 8]],
    ),
    (
        &[&[("_r", "20")], &[("_r", "4")]],
        [3, 1, 1],
        &[[1, 0, 0, 8], [2, 0, 0, 7]],
    ),
    // columns 1, 0, 2: x goes to y; then with the sign of the second row
    (&[&[("_r", "1")]], [1, 3, 1], &[[0, 0, 0, 7], [0, 1, 0, 8]]),
    (
        &[&[("_r", "033")]],
        [1, 3, 1],
        &[[0, 1, 0, 8], [0, 2, 0, 7]],
    ),
    // bit 7 is passed over
    (
        &[&[("_r", "132")]],
        [3, 1, 1],
        &[[0, 0, 0, 7], [1, 0, 0, 8]],
    ),
];

// Whether these frames make a model of this size and these voxels of the bar.
fn turns(alloc: Global, frames: &[Frame<'_>], size: Cell, want: &[[u8; 4]]) -> Result<bool, Fail> {
    let scene = scene_of(alloc, &bar_in(alloc, frames)?)?;
    Ok(has_model(&scene, 0, size, want))
}

#[test]
fn frames_turn_a_model(rt: HostRuntime) -> Result<(), Fail> {
    for &(frames, [x, y, z], want) in FRAMES {
        let same = turns(rt.alloc(), frames, Cell { x, y, z }, want)?;
        assert!(rt; same, "{frames:?}");
    }
    Ok(())
}

// Frames whose `_r` or `_t` is none, and the kind of the fault.
const BAD: &[(&[Frame<'_>], u8)] = &[
    (&[&[("_r", "")]], 3),
    (&[&[("_r", "256")]], 3),
    (&[&[("_r", "0004")]], 3),
    (&[&[("_r", "-4")]], 3),
    // equal columns, and a column of 3
    (&[&[("_r", "0")]], 3),
    (&[&[("_r", "3")]], 3),
    (&[&[("_r", "12")]], 3),
    (&[&[("_t", "")]], 4),
    (&[&[("_t", "1 2")]], 4),
    (&[&[("_t", "1 2 3 4")]], 4),
    (&[&[("_t", "1  2 3")]], 4),
    (&[&[("_t", "1 2 +3")]], 4),
    (&[&[("_t", "1 2 1000000")]], 4),
    (&[&[("_t", "1 - 3")]], 4),
    // the rotation is told first
    (&[&[("_t", "x"), ("_r", "x")]], 3),
    (&[&[("_t", "-999999 0 0")]], 0),
];

// The fault of the bar in these frames.
fn fault_in(alloc: Global, frames: &[Frame<'_>]) -> Result<(u8, u32), Fail> {
    fault_of(alloc, &bar_in(alloc, frames)?)
}

#[test]
fn a_frame_that_is_none_is_refused(rt: HostRuntime) -> Result<(), Fail> {
    let place = bar(rt.alloc())?.next();
    for &(frames, kind) in BAD {
        let want = if kind == 0 { (0, 0) } else { (kind, place) };
        assert_eq!(rt; fault_in(rt.alloc(), frames)?, want, "{frames:?}");
    }
    Ok(())
}

#[test]
fn a_node_that_is_twice_there(rt: HostRuntime) -> Result<(), Fail> {
    let alloc = rt.alloc();
    let mut chunks = bar_in(alloc, UNMOVED)?;
    let twice = chunks.next();
    chunks.shape(1, &[0])?;
    assert_eq!(rt; fault_of(alloc, &chunks)?, (2, twice));
    Ok(())
}

#[test]
fn a_node_that_is_short(rt: HostRuntime) -> Result<(), Fail> {
    let alloc = rt.alloc();
    let mut chunks = bar(alloc)?;
    let short = chunks.next();
    // an id, a DICT of one pair, and nothing behind it
    chunks.chunk(b"nGRP", b"\0\0\0\0\x01\0\0\0")?;
    chunks.shape(0, &[0])?;
    assert_eq!(rt; fault_of(alloc, &chunks)?, (1, short));
    Ok(())
}

// A path of so many groups, node 0 the first, and what is at its end.
fn path(alloc: Global, groups: u32) -> Result<Chunks, Fail> {
    let mut chunks = bar(alloc)?;
    for id in 0..groups {
        chunks.group(id, &[id.saturating_add(1)])?;
    }
    chunks.shape(groups, &[0])?;
    Ok(chunks)
}

// Numbers of groups, and the fault.
const PATHS: &[(u32, (u8, u32))] = &[(63, (0, 0)), (64, (6, 64))];

#[test]
fn paths_have_at_most_64_nodes(rt: HostRuntime) -> Result<(), Fail> {
    let alloc = rt.alloc();
    for &(groups, fault) in PATHS {
        assert_eq!(rt; fault_of(alloc, &path(alloc, groups)?)?, fault, "{groups}");
    }
    Ok(())
}

#[test]
fn a_group_in_itself_is_refused(rt: HostRuntime) -> Result<(), Fail> {
    let alloc = rt.alloc();
    let mut chunks = bar(alloc)?;
    chunks.group(0, &[0])?;
    assert_eq!(rt; fault_of(alloc, &chunks)?, (6, 0));
    Ok(())
}

// Node 0 is a group of these nodes, and node 1 shows these models.
fn grouped(alloc: Global, children: &[u32], models: &[u32]) -> Result<Chunks, Fail> {
    let mut chunks = bar(alloc)?;
    chunks.group(0, children)?;
    chunks.shape(1, models)?;
    Ok(chunks)
}

// The models of node 1 beside a node that isn't there, and the fault.
const MISSING: &[(u32, (u8, u32))] = &[(0, (5, 9)), (1, (7, 1))];

#[test]
fn what_is_not_there_is_refused(rt: HostRuntime) -> Result<(), Fail> {
    let alloc = rt.alloc();
    for &(model, fault) in MISSING {
        let chunks = grouped(alloc, &[1, 9], &[model])?;
        assert_eq!(rt; fault_of(alloc, &chunks)?, fault, "{model}");
    }
    Ok(())
}

// A shape that shows these models alone.
fn shape_alone(alloc: Global, models: &[u32]) -> Result<Chunks, Fail> {
    let mut chunks = bar(alloc)?;
    chunks.shape(0, models)?;
    Ok(chunks)
}

#[test]
fn a_shape_without_a_model_places_none(rt: HostRuntime) -> Result<(), Fail> {
    let alloc = rt.alloc();
    let scene = scene_of(alloc, &shape_alone(alloc, &[])?)?;
    assert_eq!(rt; (scene.side.cells(), scene.places.len()), (4, 0));
    Ok(())
}

// The bar, placed so often.
fn crowd(alloc: Global, number: usize) -> Result<Chunks, Fail> {
    let children: Vec<u32> = vec![in alloc; 1; number]?;
    grouped(alloc, children.as_slice(), &[0])
}

#[test]
fn there_are_1024_placements(rt: HostRuntime) -> Result<(), Fail> {
    let alloc = rt.alloc();
    let scene = scene_of(alloc, &crowd(alloc, 1024)?)?;
    assert_eq!(rt; (scene.places.len(), scene.models.list.len()), (1024, 1024));
    Ok(())
}

#[test]
fn one_placement_more_is_refused(rt: HostRuntime) -> Result<(), Fail> {
    let alloc = rt.alloc();
    assert_eq!(rt; fault_of(alloc, &crowd(alloc, 1025)?)?, (8, 1));
    Ok(())
}

// Two bars, the second moved so far.
fn apart(alloc: Global, far: &str) -> Result<Chunks, Fail> {
    let mut chunks = bar(alloc)?;
    chunks.group(0, &[1, 2])?;
    chunks.shape(1, &[0])?;
    chunks.mover(2, 1, &[&[("_t", far)]])?;
    Ok(chunks)
}

// Steps of the second bar, and the fault.
const FAR: &[(&str, (u8, u32))] = &[("4094 0 0", (9, 0)), ("0 -4096 0", (9, 0))];

#[test]
fn a_scene_ends_within_4096(rt: HostRuntime) -> Result<(), Fail> {
    let alloc = rt.alloc();
    for &(far, fault) in FAR {
        assert_eq!(rt; fault_of(alloc, &apart(alloc, far)?)?, fault, "{far}");
    }
    Ok(())
}

#[test]
fn a_scene_has_4096_cells_a_side(rt: HostRuntime) -> Result<(), Fail> {
    let alloc = rt.alloc();
    let scene = scene_of(alloc, &apart(alloc, "4093 0 0")?)?;
    assert_eq!(rt; scene.side.cells(), 4096);
    Ok(())
}
