use crate::formats::files::Piece::{At0, At1, Cut, Nested, NoSize, NoVoxels, Pack, Size1, Size2};
use crate::formats::files::{
    Answer, ONE, Piece, append, append_chunk, file, read, read_pieces, read_size, read_voxels,
};
use std::test::Fail;
use vox_read::{VoxFault, Voxel, read_models};
use vw_cell::Cell;

const OF_ONE_CELL: Answer = Ok((1, 1));

const OUT_OF_RANGE: Answer = Err(VoxFault::SizeRange(20));

const SHORT_SIZE: Answer = Err(VoxFault::ShortSize(20));

const SIZES: &[(&[u8], Answer)] = &[
    // all 1, all 256, and a byte behind the fields
    (b"\x01\0\0\0\x01\0\0\0\x01\0\0\0", OF_ONE_CELL),
    (b"\0\x01\0\0\0\x01\0\0\0\x01\0\0", OF_ONE_CELL),
    (b"\x01\0\0\0\x01\0\0\0\x01\0\0\0\xff", OF_ONE_CELL),
    // 0 and 257 on each axis, 2^16 + 1, and 2^24 + 1
    (b"\0\0\0\0\x01\0\0\0\x01\0\0\0", OUT_OF_RANGE),
    (b"\x01\0\0\0\0\0\0\0\x01\0\0\0", OUT_OF_RANGE),
    (b"\x01\0\0\0\x01\0\0\0\0\0\0\0", OUT_OF_RANGE),
    (b"\x01\x01\0\0\x01\0\0\0\x01\0\0\0", OUT_OF_RANGE),
    (b"\x01\0\0\0\x01\x01\0\0\x01\0\0\0", OUT_OF_RANGE),
    (b"\x01\0\0\0\x01\0\0\0\x01\x01\0\0", OUT_OF_RANGE),
    (b"\x01\0\x01\0\x01\0\0\0\x01\0\0\0", OUT_OF_RANGE),
    (b"\x01\0\0\0\x01\0\0\0\x01\0\0\x01", OUT_OF_RANGE),
    // 11 bytes, all of them 0, and none
    (b"\0\0\0\0\0\0\0\0\0\0\0", SHORT_SIZE),
    (b"", SHORT_SIZE),
];

#[test]
fn sizes_have_their_rules(rt: HostRuntime) -> Result<(), Fail> {
    for &(content, want) in SIZES {
        assert_eq!(rt; read_size(rt.alloc(), content)?, want, "at {content:?}");
    }
    Ok(())
}

#[test]
fn voxels_are_counted_by_the_last_at_a_place(rt: HostRuntime) -> Result<(), Fail> {
    let cases: &[(&[u8], u32)] = &[
        (b"\0\0\0\0", 0),
        (b"\x01\0\0\0\x01\0\0\x05", 1),
        (b"\x01\0\0\0\x01\0\0\0", 0),
        (b"\x02\0\0\0\0\0\0\x05\x01\0\0\xff", 2),
        (b"\x02\0\0\0\0\0\0\x05\0\0\0\x05", 1),
        (b"\x04\0\0\0\0\0\0\x05\x01\0\0\0\0\0\0\0\x01\0\0\x07", 1),
        (b"\x01\0\0\0\0\0\0\x05\x01\0\0\x05", 1),
    ];
    for &(content, cells) in cases {
        assert_eq!(rt;
            read_voxels(rt.alloc(), content)?,
            Ok((1, cells)),
            "at {content:?}"
        );
    }
    Ok(())
}

const OUTSIDE: Answer = Err(VoxFault::VoxelOutside(44));

const SHORT_XYZI: Answer = Err(VoxFault::ShortXyzi(44));

const VOXELS: &[(&[u8], Answer)] = &[
    // x, y, z outside, and x again with no colour
    (b"\x01\0\0\0\x02\0\0\x05", OUTSIDE),
    (b"\x01\0\0\0\0\x01\0\x05", OUTSIDE),
    (b"\x02\0\0\0\0\0\0\x05\0\0\x01\x05", OUTSIDE),
    (b"\x02\0\0\0\x02\0\0\0\0\0\0\x05", OUTSIDE),
    // no number, a voxel less, a byte less behind a voxel outside, and 2^30 voxels
    (b"", SHORT_XYZI),
    (b"\0\0\0", SHORT_XYZI),
    (b"\x02\0\0\0\0\0\0\x05", SHORT_XYZI),
    (b"\x02\0\0\0\x09\x09\x09\x09\0\0\0", SHORT_XYZI),
    (b"\0\0\0\x40", SHORT_XYZI),
];

#[test]
fn voxels_have_their_rules(rt: HostRuntime) -> Result<(), Fail> {
    for &(content, want) in VOXELS {
        assert_eq!(rt; read_voxels(rt.alloc(), content)?, want, "at {content:?}");
    }
    Ok(())
}

#[test]
fn children_are_read_in_order(rt: HostRuntime) -> Result<(), Fail> {
    let cases: &[(&[Piece], Answer)] = &[
        (&[], Ok((0, 0))),
        (&[Size1, At0], Ok((1, 1))),
        // a later size replaces one that waits, and what stands between does not
        (&[Size1, Size2, At1], Ok((1, 1))),
        (&[Size2, Size1, At1], Err(VoxFault::VoxelOutside(68))),
        (&[Size1, Pack, Nested, At0], Ok((1, 1))),
        (&[Pack, Size1, At0, Size2, At1], Ok((2, 2))),
        (&[Size1, At0, Size1], Ok((1, 1))),
        // no size waits: none came yet, or a model took it
        (&[At0], Err(VoxFault::XyziWithoutSize(20))),
        (&[NoVoxels, Size1], Err(VoxFault::XyziWithoutSize(20))),
        (&[Size1, At0, At0], Err(VoxFault::XyziWithoutSize(64))),
        (&[Nested, At0], Err(VoxFault::XyziWithoutSize(53))),
        // a child's frame and fields come before the next child's frame
        (&[NoSize, Cut], Err(VoxFault::ShortSize(20))),
        (&[Size1, NoVoxels, Cut], Err(VoxFault::ShortXyzi(44))),
        (&[Size1, Cut], Err(VoxFault::Truncated(44))),
        // its content takes the next chunk's first byte, and behind it stands no chunk
        (&[Cut, At0], Err(VoxFault::Truncated(45))),
    ];
    for &(pieces, want) in cases {
        assert_eq!(rt; read_pieces(rt.alloc(), pieces)?, want, "at {pieces:?}");
    }
    Ok(())
}

#[test]
fn headers_have_their_rules(rt: HostRuntime) {
    // no children: under each version, with content in MAIN, and with bytes behind it
    let nothing: [&[u8]; 4] = [
        b"VOX \x96\0\0\0MAIN\0\0\0\0\0\0\0\0",
        b"VOX \xc8\0\0\0MAIN\0\0\0\0\0\0\0\0",
        b"VOX \x96\0\0\0MAIN\x04\0\0\0\0\0\0\0XYZI",
        b"VOX \x96\0\0\0MAIN\0\0\0\0\0\0\0\0XYZI",
    ];
    for bytes in nothing {
        assert_eq!(rt; read(rt.alloc(), bytes), Ok((0, 0)), "at {bytes:?}");
    }
}

#[test]
fn headers_have_their_faults(rt: HostRuntime) {
    // the first of these that fails: the mark, the version, MAIN's frame, its id, its lengths
    let cases: &[(&[u8], VoxFault)] = &[
        (b"VOX-\x96\0\0\0MAIN\0\0\0\0\0\0\0\0", VoxFault::NotVox),
        (b"VOX \x97\0\0", VoxFault::Truncated(4)),
        (b"VOX \x97\0\0\0", VoxFault::Version(151)),
        (
            b"VOX \x96\0\x01\0MAIN\0\0\0\0\0\0\0\0",
            VoxFault::Version(65686),
        ),
        (b"VOX \x96\0\0\0mine\0\0\0\0\0\0\0", VoxFault::Truncated(8)),
        (b"VOX \x96\0\0\0mine\0\0\0\0\x09\0\0\0", VoxFault::NoMain),
        (
            b"VOX \x96\0\0\0MAIN\x01\0\0\0\0\0\0\0",
            VoxFault::Truncated(8),
        ),
        (
            b"VOX \x96\0\0\0MAIN\0\0\0\0\x01\0\0\0",
            VoxFault::Truncated(8),
        ),
        (
            b"VOX \x96\0\0\0MAIN\xff\xff\xff\xff\xff\xff\xff\xff",
            VoxFault::Truncated(8),
        ),
    ];
    for &(bytes, fault) in cases {
        assert_eq!(rt; read(rt.alloc(), bytes), Err(fault), "at {bytes:?}");
    }
}

// The answer at the first bytes of the file of one cell.
fn cut_anywhere(kept: u8) -> Answer {
    match kept {
        0..=3 => Err(VoxFault::NotVox),
        4..=7 => Err(VoxFault::Truncated(4)),
        _ => Err(VoxFault::Truncated(8)),
    }
}

// The answer where all that is kept behind MAIN's frame is its children.
fn cut_in_children(kept: u8) -> Answer {
    match kept {
        20 | 44 => Ok((0, 0)),
        0..=43 => Err(VoxFault::Truncated(20)),
        _ => Err(VoxFault::Truncated(44)),
    }
}

#[test]
fn cut_files_have_their_fault(rt: HostRuntime) {
    for kept in 0..64u8 {
        let bytes = &ONE[..usize::from(kept)];
        assert_eq!(rt;
            read(rt.alloc(), bytes),
            cut_anywhere(kept),
            "of {kept} bytes"
        );
    }
    let mut cut = ONE;
    for kept in 20..64u8 {
        cut[16] = kept - 20;
        let bytes = &cut[..usize::from(kept)];
        assert_eq!(rt;
            read(rt.alloc(), bytes),
            cut_in_children(kept),
            "of {kept} bytes"
        );
    }
}

// MAIN's content comes before its children, and bytes behind MAIN are ignored.
#[test]
fn what_is_not_a_child_is_skipped(rt: HostRuntime) {
    let bytes = b"VOX \x96\0\0\0MAIN\x04\0\0\0\x2c\0\0\0XYZI\
        SIZE\x0c\0\0\0\0\0\0\0\x01\0\0\0\x01\0\0\0\x01\0\0\0\
        XYZI\x08\0\0\0\0\0\0\0\x01\0\0\0\0\0\0\x01X";
    assert_eq!(rt; read(rt.alloc(), bytes), Ok((1, 1)));
}

const PLACE: &[u8] =
    b"\0\0\0\0\0\0\0\0\x01\0\0\0\xff\xff\xff\xff\xff\xff\xff\xff\x01\0\0\0\0\0\0\0";

const PALETTE: [u8; 1024] = [0xee; 1024];

// What stands behind the size of a file as an editor writes it: the voxels, a scene, a layer, a
// palette and a material.
const SCENE: &[(&[u8], &[u8])] = &[
    (b"XYZI", b"\x02\0\0\0\0\0\0\x4f\x01\0\0\x50"),
    (b"nTRN", PLACE),
    (b"nGRP", b"\x01\0\0\0\0\0\0\0\x01\0\0\0\x02\0\0\0"),
    (b"nTRN", PLACE),
    (b"nSHP", b"\x03\0\0\0\0\0\0\0\x01\0\0\0\0\0\0\0\0\0\0\0"),
    (b"LAYR", b"\0\0\0\0\0\0\0\0\xff\xff\xff\xff"),
    (b"RGBA", &PALETTE),
    (b"MATL", b"\x01\0\0\0\0\0\0\0"),
];

#[test]
fn scenes_are_passed_over(rt: HostRuntime) -> Result<(), Fail> {
    let mut children = Vec::new(rt.alloc());
    append(&mut children, &[Size2])?;
    for &(id, content) in SCENE {
        append_chunk(&mut children, id, content)?;
    }
    for version in [150, 200] {
        let bytes = file(rt.alloc(), version, children.as_slice())?;
        assert_eq!(rt;
            read(rt.alloc(), bytes.as_slice()),
            Ok((1, 2)),
            "under {version}"
        );
    }
    Ok(())
}

#[test]
fn models_stand_in_the_order_of_the_file(rt: HostRuntime) -> Result<(), Fail> {
    let mut children = Vec::new(rt.alloc());
    append_chunk(&mut children, b"SIZE", b"\x02\0\0\0\x03\0\0\0\0\x01\0\0")?;
    append_chunk(
        &mut children,
        b"XYZI",
        b"\x02\0\0\0\x01\x02\xff\x09\0\x01\x02\0",
    )?;
    append(&mut children, &[Size1, At0])?;
    let bytes = file(rt.alloc(), 200, children.as_slice())?;
    assert!(rt; bytes.len() < 1000);
    let models = read_models(rt.alloc(), bytes.as_slice())?;
    assert_eq!(rt; models.list.len(), 2);
    let first = &models.list[0];
    assert_eq!(rt; first.size, Cell { x: 2, y: 3, z: 256 });
    let voxels = [(1, 2, 255, 9), (0, 1, 2, 0)].map(|(x, y, z, colour)| Voxel { x, y, z, colour });
    assert_eq!(rt; first.voxels.as_slice(), voxels.as_slice());
    assert_eq!(rt; models.list[1].size, Cell { x: 1, y: 1, z: 1 });
    Ok(())
}

// One model more than 1,024 is refused before its fields are read; a size alone is no model.
#[test]
fn a_file_has_at_most_1024_models(rt: HostRuntime) -> Result<(), Fail> {
    let mut children = Vec::new(rt.alloc());
    for _ in 0..1024 {
        append(&mut children, &[Size1, At0])?;
    }
    let cases: [(&[Piece], Answer); 3] = [
        (&[], Ok((1024, 1024))),
        (&[Size1], Ok((1024, 1024))),
        (&[At1], Err(VoxFault::TooManyModels(45100))),
    ];
    for (pieces, want) in cases {
        append(&mut children, pieces)?;
        let bytes = file(rt.alloc(), 150, children.as_slice())?;
        assert_eq!(rt; read(rt.alloc(), bytes.as_slice()), want, "with {pieces:?}");
    }
    Ok(())
}
