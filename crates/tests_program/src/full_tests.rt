//! Commands whose store has no room: 257 leaves of one bucket, which has 256 slots.

use crate::calls::{ends, has, lacks};
use std::alloc::{AllocError, Global};
use std::sync::Wait;
use std::test::Fail;
use std::thread::Threads;
use vw_io::{MemoryShelf, Shelf};

// The bucket of a leaf of these bits, of 4,096.
fn bucket_of(bits: u64) -> u64 {
    let mut hash = (0x9E37_79B9_7F4A_7C15u64 ^ bits).wrapping_mul(0xBF58_476D_1CE4_E5B9);
    hash = hash ^ (hash >> 29);
    hash = (hash ^ (hash >> 32)).wrapping_mul(0x94D0_49BB_1331_11EB);
    hash = hash ^ (hash >> 29);
    (hash >> 32) % 4096
}

// The cells of a leaf of these bits, which is the leaf of this number in rows of 8 and planes of
// 64.
fn put_leaf(alloc: Global, leaf: u16, bits: u64) -> Result<Vec<u8>, AllocError> {
    let x = ((leaf % 8) as u8).wrapping_mul(4);
    let y = ((leaf / 8 % 8) as u8).wrapping_mul(4);
    let z = ((leaf / 64 % 8) as u8).wrapping_mul(4);
    let mut voxels = Vec::new(alloc);
    let mut rest = bits;
    for bit in 0..64u8 {
        if rest % 2 == 1 {
            let cell = [
                x.wrapping_add(bit % 4),
                y.wrapping_add(bit / 4 % 4),
                z.wrapping_add(bit / 16),
                1,
            ];
            voxels.extend_from_slice(&cell)?;
        }
        rest = rest / 2;
    }
    Ok(voxels)
}

// The cells of so many different leaves of bucket 7. The bits of the 257th are 1,091,086.
fn leaves_of_one_bucket(alloc: Global, leaves: u16) -> Result<Vec<u8>, AllocError> {
    let mut voxels = Vec::new(alloc);
    let mut leaf: u16 = 0;
    for bits in 1..1_100_000u64 {
        if leaf < leaves && bucket_of(bits) == 7 {
            voxels.extend_from_slice(put_leaf(alloc, leaf, bits)?.as_slice())?;
            leaf = leaf.saturating_add(1);
        }
    }
    Ok(voxels)
}

// The file of a model of 32 x 32 x 20 cells with these.
fn file_of(alloc: Global, voxels: &[u8]) -> Result<Vec<u8>, Fail> {
    let length = u32::try_from(voxels.len())?;
    let mut file = Vec::from_slice(alloc, b"VOX \x96\0\0\0MAIN\0\0\0\0")?;
    file.extend_from_slice(&length.wrapping_add(40).to_le_bytes())?;
    file.extend_from_slice(b"SIZE\x0c\0\0\0\0\0\0\0\x20\0\0\0\x20\0\0\0\x14\0\0\0XYZI")?;
    file.extend_from_slice(&length.wrapping_add(4).to_le_bytes())?;
    file.extend_from_slice(b"\0\0\0\0")?;
    file.extend_from_slice(&(length / 4).to_le_bytes())?;
    file.extend_from_slice(voxels)?;
    Ok(file)
}

const JOURNAL: &str = "voxdag journal 1\nside 32\n1 0 1 stamp 0 0 0 0\nend\n";

const SCRIPT: &str = "stamp 0 0 0 0\n";

const ANSWERS: &str = "1 @1 ok\n";

// A model of so many such leaves, a journal, a script and its transcript.
fn shelf_of(alloc: Global, leaves: u16) -> Result<MemoryShelf, Fail> {
    let voxels = leaves_of_one_bucket(alloc, leaves)?;
    let model = file_of(alloc, voxels.as_slice())?;
    let mut shelf = MemoryShelf::new(alloc);
    shelf.write("m", model.as_slice())?;
    shelf.write("j", JOURNAL.as_bytes())?;
    shelf.write("s", SCRIPT.as_bytes())?;
    shelf.write("s.out", ANSWERS.as_bytes())?;
    Ok(shelf)
}

// A line that replays a stamp of the model, and what it puts where the bucket has room: the empty
// cells of the model of 256 leaves are all connected.
const LINES: &[(&str, &str)] = &[
    ("flood m 0 31 31 19 o", "17957\n"),
    ("dag m j o", ""),
    ("audit m j s", "yes\n"),
    ("audit --buckets 1 m j s", "yes\n"),
];

fn are_refused<R: Threads + Wait + Sync>(rt: &R, alloc: Global) -> Result<(), Fail> {
    let mut shelf = shelf_of(alloc, 257)?;
    for &(line, _) in LINES {
        ends(rt, alloc, line, &mut shelf, 13, "voxdag: full 0 7\n")?;
        lacks(&shelf, "o")?;
        has(&shelf, "s.out", ANSWERS)?;
    }
    Ok(())
}

fn are_done<R: Threads + Wait + Sync>(rt: &R, alloc: Global) -> Result<(), Fail> {
    let mut shelf = shelf_of(alloc, 256)?;
    for &(line, printed) in LINES {
        ends(rt, alloc, line, &mut shelf, 0, printed)?;
    }
    Ok(())
}

#[test]
fn a_bucket_has_256_slots(rt: HostRuntime) -> Result<(), Fail> {
    are_done(&rt, rt.alloc())?;
    are_refused(&rt, rt.alloc())
}
