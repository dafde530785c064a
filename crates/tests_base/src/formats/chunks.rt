ghost use Rattle.std.specs.Prelude.{◌≤◌, ◌^◌, length};

use crate::formats::files::ONE;
use std::test::Fail;
use vox_chunk::{Chunks, VoxFault};

// The first children of MAIN up to the first fault, as their places, and the fault.
fn walk(bytes: &[u8]) -> (u32, Option<VoxFault>)
    requires { length bytes.now ≤ 2 ^ 28 }
{
    let mut chunks = match Chunks::new(bytes) {
        Ok(chunks) => chunks,
        Err(fault) => return (0, Some(fault)),
    };
    let mut last = 0;
    for _ in 0..3 {
        match chunks.next() {
            None => return (last, None),
            Some(Err(fault)) => return (last, Some(fault)),
            Some(Ok(chunk)) => last = chunk.at,
        }
    }
    (last, None)
}

#[test]
fn children_are_slices_in_order(rt: HostRuntime) -> Result<(), Fail> {
    let mut chunks = Chunks::new(&ONE).map_err(|_| "a header")?;
    let size = chunks.next().ok_or("SIZE")?.map_err(|_| "a frame")?;
    assert_eq!(rt; (size.id, size.at, size.content.len()), (*b"SIZE", 20, 12));
    let voxels = chunks.next().ok_or("XYZI")?.map_err(|_| "a frame")?;
    assert_eq!(rt; (voxels.id, voxels.at), (*b"XYZI", 44));
    assert_eq!(rt; voxels.content, &ONE[56..]);
    assert!(rt; chunks.next().is_none(), "the children end");
    Ok(())
}

#[test]
fn cut_files_have_their_fault(rt: HostRuntime) {
    for (kept, fault) in [
        (0, VoxFault::NotVox),
        (3, VoxFault::NotVox),
        (4, VoxFault::Truncated(4)),
        (7, VoxFault::Truncated(4)),
        (8, VoxFault::Truncated(8)),
        (63, VoxFault::Truncated(8)),
    ] {
        if kept < 64 {
            assert_eq!(rt; walk(&ONE[..kept]), (0, Some(fault)), "of {kept} bytes");
        }
    }
    for (kept, children, last, fault) in [
        (20, 0, 0, None),
        (44, 24, 20, None),
        (21, 1, 0, Some(VoxFault::Truncated(20))),
        (43, 23, 0, Some(VoxFault::Truncated(20))),
        (45, 25, 20, Some(VoxFault::Truncated(44))),
        (63, 43, 20, Some(VoxFault::Truncated(44))),
    ] {
        let mut cut = ONE;
        cut[16] = children;
        if kept <= 64 {
            assert_eq!(rt;
                walk(&cut[..kept]),
                (last, fault),
                "of {kept} bytes, all of them MAIN's"
            );
        }
    }
}

#[test]
fn headers_have_their_fault(rt: HostRuntime) {
    let mut newer = ONE;
    newer[4] = 151;
    assert_eq!(rt; walk(&newer), (0, Some(VoxFault::Version(151))));
    let mut other = ONE;
    other[8] = b'm';
    assert_eq!(rt; walk(&other), (0, Some(VoxFault::NoMain)));
    let fault = VoxFault::ShortXyzi(44);
    assert_eq!(rt; (fault.kind(), fault.at()), (8, 44));
    assert_eq!(rt;
        (VoxFault::Version(151).kind(), VoxFault::Version(151).at()),
        (2, 4)
    );
}
