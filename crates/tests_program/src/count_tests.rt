use crate::calls::{ONE, ends, is_end, one_fault, voxdag, words_of};
use std::alloc::Global;
use std::sync::Wait;
use std::test::Fail;
use std::thread::Threads;
use vw_io::{FaultyShelf, FaultySink, MemoryShelf, MemorySink, Shelf};

/// Size 2 1 1 under version 200. At x = 0 a colour and then none; at x = 1 a colour twice.
const LAST: [u8; 76] =
    *b"VOX \xc8\0\0\0MAIN\0\0\0\0\x38\0\0\0SIZE\x0c\0\0\0\0\0\0\0\x02\0\0\0\x01\0\0\0\x01\0\0\0\
     XYZI\x14\0\0\0\0\0\0\0\x04\0\0\0\0\0\0\x05\0\0\0\0\x01\0\0\x07\x01\0\0\x07";

/// A model of size 1 1 1 with no voxel.
const EMPTY: [u8; 60] =
    *b"VOX \x96\0\0\0MAIN\0\0\0\0\x28\0\0\0SIZE\x0c\0\0\0\0\0\0\0\x01\0\0\0\x01\0\0\0\x01\0\0\0\
     XYZI\x04\0\0\0\0\0\0\0\0\0\0\0";

fn shelf(alloc: Global) -> Result<MemoryShelf, Fail> {
    let mut shelf = MemoryShelf::new(alloc);
    shelf.write("one.vox", &ONE)?;
    shelf.write("last.vox", &LAST)?;
    shelf.write("empty.vox", &EMPTY)?;
    shelf.write("nothing", b"")?;
    Ok(shelf)
}

#[test]
fn count_answers_by_its_words(rt: HostRuntime) -> Result<(), Fail> {
    let mut shelf = shelf(rt.alloc())?;
    for &(line, status, want) in &[
        ("count one.vox", 0, "1\n"),
        ("count last.vox", 0, "1\n"),
        ("count empty.vox", 0, "0\n"),
        ("count nothing", 4, "voxdag: vox 1 0\n"),
        ("count no.vox", 2, "voxdag: missing no.vox\n"),
        ("count", 1, "voxdag: usage\n"),
        ("count ", 1, "voxdag: usage\n"),
        ("count -one.vox", 1, "voxdag: usage\n"),
        ("count one.vox one.vox", 1, "voxdag: usage\n"),
        ("Count one.vox", 1, "voxdag: usage\n"),
        ("--help", 1, "voxdag: usage\n"),
    ] {
        ends(&rt, rt.alloc(), line, &mut shelf, status, want)?;
    }
    Ok(())
}

// The file of one cell with this length, and this byte at this place.
fn changed(alloc: Global, length: usize, at: usize, byte: u8) -> Result<Vec<u8>, Fail> {
    let mut file = Vec::from_slice(alloc, &ONE)?;
    file.resize(length, 0)?;
    if let Some(old) = file.get_mut(at) {
        *old = byte;
    }
    Ok(file)
}

fn is_counted<R: Threads + Wait + Sync>(
    rt: &R,
    alloc: Global,
    file: &[u8],
    status: u8,
    want: &str,
) -> Result<(), Fail> {
    let mut shelf = MemoryShelf::new(alloc);
    shelf.write("a.vox", file)?;
    ends(rt, alloc, "count a.vox", &mut shelf, status, want)
}

#[test]
fn count_answers_by_its_file(rt: HostRuntime) -> Result<(), Fail> {
    for &(length, at, byte, status, want) in &[
        // one byte behind MAIN
        (65, 64, 7, 0, "1\n"),
        // MAIN without children
        (20, 16, 0, 0, "0\n"),
        // another version
        (64, 4, 151, 4, "voxdag: vox 2 4\n"),
        // two voxels where there is room for one
        (64, 56, 2, 4, "voxdag: vox 8 44\n"),
        // MAIN does not end in the file
        (30, 16, 44, 4, "voxdag: vox 4 8\n"),
        // SIZE does not end in MAIN
        (40, 16, 20, 4, "voxdag: vox 4 20\n"),
    ] {
        let file = changed(rt.alloc(), length, at, byte)?;
        is_counted(&rt, rt.alloc(), file.as_slice(), status, want)?;
    }
    Ok(())
}

// The first bytes of the file of one cell, from so many to so many, and the line.
type Cut = (usize, usize, u8, &'static str);

// MAIN says 44 bytes of children, as in the whole file.
const CUT_ANYWHERE: &[Cut] = &[
    (0, 3, 4, "voxdag: vox 1 0\n"),
    (4, 7, 4, "voxdag: vox 4 4\n"),
    (8, 63, 4, "voxdag: vox 4 8\n"),
];

// MAIN says as many as are left behind its own 20.
const CUT_IN_CHILDREN: &[Cut] = &[
    (20, 20, 0, "0\n"),
    (21, 43, 4, "voxdag: vox 4 20\n"),
    (44, 44, 0, "0\n"),
    (45, 63, 4, "voxdag: vox 4 44\n"),
];

fn are_cut<R: Threads + Wait + Sync>(
    rt: &R,
    alloc: Global,
    cut: &Cut,
    is_framed: bool,
) -> Result<(), Fail> {
    let &(least, most, status, want) = cut;
    for kept in least..=most {
        let children = if is_framed {
            kept.saturating_sub(20)
        } else {
            44
        };
        let children = u8::try_from(children).unwrap_or(44);
        let file = changed(alloc, kept, 16, children)?;
        is_counted(rt, alloc, file.as_slice(), status, want)?;
    }
    Ok(())
}

#[test]
fn cut_files_have_their_fault(rt: HostRuntime) -> Result<(), Fail> {
    for cut in CUT_ANYWHERE {
        are_cut(&rt, rt.alloc(), cut, false)?;
    }
    for cut in CUT_IN_CHILDREN {
        are_cut(&rt, rt.alloc(), cut, true)?;
    }
    Ok(())
}

const PLACE: &[u8] =
    b"\0\0\0\0\0\0\0\0\x01\0\0\0\xff\xff\xff\xff\xff\xff\xff\xff\x01\0\0\0\0\0\0\0";

const PALETTE: [u8; 1024] = [0xee; 1024];

// The chunks of a file as an editor writes it: a size of 2 1 1, two voxels of the colours 79 and
// 80, a scene, a layer, a palette and a material.
const SCENE: &[(&[u8], &[u8])] = &[
    (b"SIZE", b"\x02\0\0\0\x01\0\0\0\x01\0\0\0"),
    (b"XYZI", b"\x02\0\0\0\0\0\0\x4f\x01\0\0\x50"),
    (b"nTRN", PLACE),
    (b"nGRP", b"\x01\0\0\0\0\0\0\0\x01\0\0\0\x02\0\0\0"),
    (b"nTRN", PLACE),
    (b"nSHP", b"\x03\0\0\0\0\0\0\0\x01\0\0\0\0\0\0\0\0\0\0\0"),
    (b"LAYR", b"\0\0\0\0\0\0\0\0\xff\xff\xff\xff"),
    (b"RGBA", &PALETTE),
    (b"MATL", b"\x01\0\0\0\0\0\0\0"),
];

fn append_chunk(into: &mut Vec<u8>, id: &[u8], content: &[u8]) -> Result<(), Fail> {
    into.extend_from_slice(id)?;
    into.extend_from_slice(&u32::try_from(content.len())?.to_le_bytes())?;
    into.extend_from_slice(b"\0\0\0\0")?;
    into.extend_from_slice(content)?;
    Ok(())
}

// The file of these chunks under a version.
fn scene(alloc: Global, version: u8) -> Result<Vec<u8>, Fail> {
    let mut children = Vec::new(alloc);
    for &(id, content) in SCENE {
        append_chunk(&mut children, id, content)?;
    }
    let mut file = Vec::from_slice(alloc, b"VOX ")?;
    file.extend_from_slice(&[version, 0, 0, 0])?;
    file.extend_from_slice(b"MAIN\0\0\0\0")?;
    file.extend_from_slice(&u32::try_from(children.len())?.to_le_bytes())?;
    file.extend_from_slice(children.as_slice())?;
    Ok(file)
}

#[test]
fn scenes_are_passed_over(rt: HostRuntime) -> Result<(), Fail> {
    for &version in &[150u8, 200] {
        let file = scene(rt.alloc(), version)?;
        is_counted(&rt, rt.alloc(), file.as_slice(), 0, "2\n")?;
    }
    Ok(())
}

#[test]
fn no_words_are_usage(rt: HostRuntime) -> Result<(), Fail> {
    let mut shelf = MemoryShelf::new(rt.alloc());
    let mut out = MemorySink::new(rt.alloc());
    let ended = voxdag(&rt, rt.alloc(), &[], &mut shelf, &mut out);
    is_end("", ended, out.bytes(), 1, "voxdag: usage\n")
}

#[test]
fn a_fault_has_its_line(rt: HostRuntime) -> Result<(), Fail> {
    let mut shelf = FaultyShelf::new(shelf(rt.alloc())?, one_fault(rt.alloc(), 1, 0)?);
    for &(status, want) in &[(3, "voxdag: read fault one.vox\n"), (0, "1\n")] {
        ends(&rt, rt.alloc(), "count one.vox", &mut shelf, status, want)?;
    }
    Ok(())
}

// A line of which so many bytes go through ends in status 7, with these bytes.
fn is_out_fault<R: Threads + Wait + Sync>(
    rt: &R,
    alloc: Global,
    shelf: &mut MemoryShelf,
    line: &str,
    passes: u32,
    want: &str,
) -> Result<(), Fail> {
    let mut out = FaultySink::new(alloc, one_fault(alloc, 1, passes)?);
    let words = words_of(alloc, line)?;
    let ended = voxdag(rt, alloc, words.as_slice(), shelf, &mut out);
    is_end(line, ended, out.bytes(), 7, want)
}

#[test]
fn a_line_that_fails_is_status_7(rt: HostRuntime) -> Result<(), Fail> {
    let mut shelf = shelf(rt.alloc())?;
    for &(line, passes, want) in &[
        ("count one.vox", 0, ""),
        ("count no.vox", 8, "voxdag: "),
        ("count", 99, "voxdag: usage\n"),
    ] {
        is_out_fault(&rt, rt.alloc(), &mut shelf, line, passes, want)?;
    }
    Ok(())
}
