use crate::formats::files::ONE;
use std::test::Fail;
use vox_read::{VoxFault, Voxel, cell_count, cells, read_models};
use vw_cell::Cell;

/// Size 2 1 1. At x = 0 a colour and then none; at x = 1 a colour twice.
const LAST: [u8; 76] = *b"VOX \xc8\0\0\0MAIN\0\0\0\0\x38\0\0\0\
    SIZE\x0c\0\0\0\0\0\0\0\x02\0\0\0\x01\0\0\0\x01\0\0\0\
    XYZI\x14\0\0\0\0\0\0\0\x04\0\0\0\0\0\0\x05\0\0\0\0\x01\0\0\x07\x01\0\0\x07";

#[test]
fn a_model_is_read_and_counted(rt: HostRuntime) -> Result<(), Fail> {
    let models = read_models(rt.alloc(), &ONE)?;
    assert_eq!(rt; models.list.len(), 1);
    let model = &models.list[0];
    assert_eq!(rt; model.size, Cell { x: 1, y: 1, z: 1 });
    let voxel = Voxel {
        x: 0,
        y: 0,
        z: 0,
        colour: 1,
    };
    assert_eq!(rt; model.voxels.as_slice(), [voxel].as_slice());
    assert_eq!(rt; cell_count(rt.alloc(), model)?, 1);
    Ok(())
}

#[test]
fn cells_are_listed_once(rt: HostRuntime) -> Result<(), Fail> {
    let models = read_models(rt.alloc(), &LAST).map_err(|_| "a file")?;
    let model = models.list.first().ok_or("a model")?;
    let listed = cells(rt.alloc(), model).map_err(|_| "out of memory")?;
    assert_eq!(rt; listed.len(), 1);
    let voxel = listed.first().ok_or("a cell")?;
    assert_eq!(rt; (voxel.x, voxel.y, voxel.z), (1, 0, 0));
    Ok(())
}

#[test]
fn a_fault_is_told_with_its_place(rt: HostRuntime) {
    let mut two = ONE;
    two[56] = 2;
    let fault = VoxFault::ShortXyzi(44);
    assert_eq!(rt;
        read_models(rt.alloc(), &two).err(),
        Some(fault),
        "two voxels, bytes for one"
    );
    assert_eq!(rt; (fault.kind(), fault.at()), (8, 44));
    let mut newer = ONE;
    newer[4] = 151;
    assert_eq!(rt;
        read_models(rt.alloc(), &newer).err(),
        Some(VoxFault::Version(151))
    );
}
