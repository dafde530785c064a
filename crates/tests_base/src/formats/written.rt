use crate::formats::files::ONE;
use std::test::Fail;
use vox_read::{Voxel, read_models};
use vox_write::write_model;
use vw_cell::Cell;

/// The file of a size of one cell that has none: MAIN's children have 40 bytes.
const NONE: [u8; 60] = *b"VOX \x96\0\0\0MAIN\0\0\0\0\x28\0\0\0\
    SIZE\x0c\0\0\0\0\0\0\0\x01\0\0\0\x01\0\0\0\x01\0\0\0\
    XYZI\x04\0\0\0\0\0\0\0\0\0\0\0";

/// Behind one byte, a file of size 256 2 3 with two voxels, the second without a colour.
const BEHIND: [u8; 69] = *b"!VOX \x96\0\0\0MAIN\0\0\0\0\x30\0\0\0\
    SIZE\x0c\0\0\0\0\0\0\0\0\x01\0\0\x02\0\0\0\x03\0\0\0\
    XYZI\x0c\0\0\0\0\0\0\0\x02\0\0\0\xff\x01\x02\x4f\x07\0\x01\0";

const UNIT: Cell = Cell { x: 1, y: 1, z: 1 };

const LONG: Cell = Cell { x: 256, y: 2, z: 3 };

const CELL: Voxel = Voxel {
    x: 0,
    y: 0,
    z: 0,
    colour: 1,
};

const FAR: Voxel = Voxel {
    x: 255,
    y: 1,
    z: 2,
    colour: 79,
};

const CLEAR: Voxel = Voxel {
    x: 7,
    y: 0,
    z: 1,
    colour: 0,
};

#[test]
fn files_have_their_bytes(rt: HostRuntime) -> Result<(), Fail> {
    let mut one = Vec::new(rt.alloc());
    write_model(UNIT, &[CELL], &mut one).map_err(|_| "out of memory")?;
    assert_eq!(rt; one.as_slice(), ONE.as_slice());
    let mut none = Vec::new(rt.alloc());
    write_model(UNIT, &[], &mut none).map_err(|_| "out of memory")?;
    assert_eq!(rt; none.as_slice(), NONE.as_slice());
    let mut behind = Vec::new(rt.alloc());
    behind.push(b'!').map_err(|_| "out of memory")?;
    write_model(LONG, &[FAR, CLEAR], &mut behind).map_err(|_| "out of memory")?;
    assert_eq!(rt; behind.as_slice(), BEHIND.as_slice());
    Ok(())
}

#[test]
fn the_bytes_are_read_as_the_model(rt: HostRuntime) -> Result<(), Fail> {
    let models = read_models(rt.alloc(), &BEHIND[1..])?;
    assert_eq!(rt; models.list.len(), 1);
    let model = &models.list[0];
    assert_eq!(rt; model.size, LONG);
    assert_eq!(rt; model.voxels.as_slice(), [FAR, CLEAR].as_slice());
    Ok(())
}
