use crate::stores::octants::{Octants, octants_of};
use crate::stores::{Counted, fault_in, full_world_file, look_at, versions_of};
use node_words::Name;
use std::test::Fail;

/// A file of a world of 8 cells: version 0 is empty, and all cells of version 1 are set.
const FULL: &[u8] = b"VDAG\x01\0\0\0\x08\0\0\0\x02\0\0\0\x01\0\0\0\x01\0\0\0\
    \xff\xff\xff\xff\xff\xff\xff\xff\
    \x01\0\0\0\x01\0\0\0\x01\0\0\0\x01\0\0\0\x01\0\0\0\x01\0\0\0\x01\0\0\0\x01\0\0\0\
    \0\0\0\0\0\0\0\0\x01\0\0\0\x01\0\0\0";

/// A file of a world of 16 cells with three versions: two leaves, three nodes of level 1 and three
/// above.
const SIXTEEN: &[u8] = b"VDAG\x01\0\0\0\x10\0\0\0\x03\0\0\0\x02\0\0\0\x03\0\0\0\x03\0\0\0\
    \x01\0\0\0\0\0\0\0\x02\0\0\0\0\0\0\0\
    \0\0\0\0\0\0\0\0\0\0\0\0\0\0\0\0\0\0\0\0\0\0\0\0\0\0\0\0\x01\0\0\0\
    \x01\0\0\0\0\0\0\0\0\0\0\0\0\0\0\0\0\0\0\0\0\0\0\0\0\0\0\0\x02\0\0\0\
    \x02\0\0\0\x02\0\0\0\x02\0\0\0\x02\0\0\0\x02\0\0\0\x02\0\0\0\x02\0\0\0\x02\0\0\0\
    \0\0\0\0\0\0\0\0\0\0\0\0\0\0\0\0\0\0\0\0\0\0\0\0\x03\0\0\0\x01\0\0\0\
    \x01\0\0\0\0\0\0\0\x02\0\0\0\0\0\0\0\0\0\0\0\0\0\0\0\0\0\0\0\0\0\0\0\
    \x03\0\0\0\0\0\0\0\0\0\0\0\0\0\0\0\0\0\0\0\0\0\0\0\0\0\0\0\0\0\0\0\
    \0\0\0\0\x02\0\0\0\x02\0\0\0\x03\0\0\0\x05\0\0\0\x01\0\0\0";

#[test]
fn what_a_file_says_of_its_versions(rt: HostRuntime) {
    assert_eq!(rt; FULL.len(), 80);
    assert_eq!(rt; look_at(rt.alloc(), FULL, 0), Counted::Cells(0));
    assert_eq!(rt; look_at(rt.alloc(), FULL, 1), Counted::Cells(512));
    assert_eq!(rt; look_at(rt.alloc(), FULL, 2), Counted::NoVersion);
    // The nodes of level 1 have 1, 2 and 8 cells; version 0 has the first two of them, version 2
    // the third, and version 5 the third and the first.
    assert_eq!(rt; look_at(rt.alloc(), SIXTEEN, 0), Counted::Cells(3));
    assert_eq!(rt; look_at(rt.alloc(), SIXTEEN, 2), Counted::Cells(8));
    assert_eq!(rt; look_at(rt.alloc(), SIXTEEN, 5), Counted::Cells(9));
    assert_eq!(rt; look_at(rt.alloc(), SIXTEEN, 1), Counted::NoVersion);
    assert_eq!(rt; look_at(rt.alloc(), b"VDAG", 0), Counted::NoFile);
}

const FIRST: Name = Name {
    level: 1,
    bucket: 0,
    slot: 0,
};

const SECOND: Name = Name {
    level: 1,
    bucket: 0,
    slot: 1,
};

const THIRD: Name = Name {
    level: 1,
    bucket: 0,
    slot: 2,
};

/// Versions of `SIXTEEN`, and what their roots have in octants: version 0 the first node in octant
/// 0 and in octant 2 the second one, which has both leaves; version 2 the third node in octant 0.
fn octants() -> [(u32, Octants); 2] {
    let mut names = [None; 8];
    names[0] = Some(FIRST);
    names[2] = Some(SECOND);
    let bits = [1, 0, 0, 0, 0, 0, 0, 2];
    let first = Octants { names, bits };
    let mut names = [None; 8];
    names[0] = Some(THIRD);
    let bits = [0; 8];
    [(0, first), (2, Octants { names, bits })]
}

#[test]
fn octants_are_told_by_one_look(rt: HostRuntime) {
    for (version, octants) in octants() {
        assert_eq!(rt;
            octants_of(rt.alloc(), SIXTEEN, version),
            Some(octants),
            "of {version}"
        );
    }
}

/// A file of a world of 4 cells without a version, so that it has no leaf.
const NONE: &[u8] = b"VDAG\x01\0\0\0\x04\0\0\0\0\0\0\0\0\0\0\0";

/// Files, and how many versions each has. What is no file has none.
const VERSIONS: &[(&[u8], Option<u32>)] = &[
    (NONE, Some(0)),
    (FULL, Some(2)),
    (SIXTEEN, Some(3)),
    (b"VDAG", None),
];

#[test]
fn files_have_so_many_versions(rt: HostRuntime) {
    for &(bytes, number) in VERSIONS {
        assert_eq!(rt; versions_of(rt.alloc(), bytes), number);
    }
}

/// The place, the byte put there, and where the file is refused then, if at all: the mark, the 1,
/// the side, too many versions, too many entries, a node with a word over the leaves, the number of
/// a version that doesn't rise, a root word over the nodes, and one that leaves the node unnamed.
const CHANGES: &[(usize, u8, Option<u64>)] = &[
    (0, 0x56, None),
    (0, 0x57, Some(0)),
    (4, 2, Some(4)),
    (8, 9, Some(8)),
    (14, 2, Some(12)),
    (19, 2, Some(16)),
    (23, 2, Some(20)),
    (32, 2, Some(32)),
    (60, 2, Some(32)),
    (72, 0, Some(72)),
    (68, 2, Some(68)),
    (76, 2, Some(76)),
    (76, 0, Some(32)),
];

#[test]
fn a_changed_file_is_refused_where_a_rule_is_broken(rt: HostRuntime) -> Result<(), Fail> {
    for &(at, byte, place) in CHANGES {
        let mut bytes = FULL.to_vec(rt.alloc())?;
        if at < bytes.len() {
            bytes[at] = byte;
        }
        assert_eq!(rt; fault_in(rt.alloc(), &bytes), place, "changed at {at}");
    }
    Ok(())
}

#[test]
fn an_empty_leaf_and_a_byte_too_many(rt: HostRuntime) -> Result<(), Fail> {
    let mut bytes = FULL.to_vec(rt.alloc())?;
    bytes.push(0)?;
    assert_eq!(rt; fault_in(rt.alloc(), &bytes), Some(80));
    let mut bytes = FULL.to_vec(rt.alloc())?;
    for at in 24..32 {
        if at < bytes.len() {
            bytes[at] = 0;
        }
    }
    assert_eq!(rt; fault_in(rt.alloc(), &bytes), Some(24));
    Ok(())
}

#[test]
fn the_file_of_a_full_world(rt: HostRuntime) {
    match full_world_file(rt.alloc(), b"") {
        Some(file) => assert_eq!(rt; file.as_slice(), FULL),
        None => assert!(rt; false),
    }
    match full_world_file(rt.alloc(), b"ab") {
        Some(file) => assert!(rt; file.starts_with(b"abVDAG")),
        None => assert!(rt; false),
    }
}
