//! Floods of models, run by the program.

use crate::calls::{ends, holds, lacks};
use std::alloc::Global;
use std::test::Fail;
use vw_io::{MemoryShelf, Shelf};

/// A model of 3 x 1 x 1 cells whose middle one is set.
const WALL: [u8; 64] =
    *b"VOX \x96\0\0\0MAIN\0\0\0\0\x2c\0\0\0SIZE\x0c\0\0\0\0\0\0\0\x03\0\0\0\x01\0\0\0\x01\0\0\0\
     XYZI\x08\0\0\0\0\0\0\0\x01\0\0\0\x01\0\0\x05";

/// Its left end, and none of it.
const LEFT: [u8; 64] =
    *b"VOX \x96\0\0\0MAIN\0\0\0\0\x2c\0\0\0SIZE\x0c\0\0\0\0\0\0\0\x03\0\0\0\x01\0\0\0\x01\0\0\0\
     XYZI\x08\0\0\0\0\0\0\0\x01\0\0\0\0\0\0\x01";

const NONE: [u8; 60] =
    *b"VOX \x96\0\0\0MAIN\0\0\0\0\x28\0\0\0SIZE\x0c\0\0\0\0\0\0\0\x03\0\0\0\x01\0\0\0\x01\0\0\0\
     XYZI\x04\0\0\0\0\0\0\0\0\0\0\0";

/// A model of 3 x 3 x 3 cells that are set, but for the middle, and the middle.
const SHELL: [u8; 164] =
    *b"VOX \x96\0\0\0MAIN\0\0\0\0\x90\0\0\0SIZE\x0c\0\0\0\0\0\0\0\x03\0\0\0\x03\0\0\0\x03\0\0\0\
     XYZIl\0\0\0\0\0\0\0\x1a\0\0\0\
    \0\0\0\x02\x01\0\0\x02\x02\0\0\x02\0\x01\0\x02\x01\x01\0\x02\
    \x02\x01\0\x02\0\x02\0\x02\x01\x02\0\x02\x02\x02\0\x02\
    \0\0\x01\x02\x01\0\x01\x02\x02\0\x01\x02\0\x01\x01\x02\x02\x01\x01\x02\
    \0\x02\x01\x02\x01\x02\x01\x02\x02\x02\x01\x02\
    \0\0\x02\x02\x01\0\x02\x02\x02\0\x02\x02\0\x01\x02\x02\x01\x01\x02\x02\
    \x02\x01\x02\x02\0\x02\x02\x02\x01\x02\x02\x02\x02\x02\x02\x02";

const MIDDLE: [u8; 64] =
    *b"VOX \x96\0\0\0MAIN\0\0\0\0\x2c\0\0\0SIZE\x0c\0\0\0\0\0\0\0\x03\0\0\0\x03\0\0\0\x03\0\0\0\
     XYZI\x08\0\0\0\0\0\0\0\x01\0\0\0\x01\x01\x01\x01";

/// A model of that size without a cell.
const NO_CELL: [u8; 60] =
    *b"VOX \x96\0\0\0MAIN\0\0\0\0\x28\0\0\0SIZE\x0c\0\0\0\0\0\0\0\x03\0\0\0\x03\0\0\0\x03\0\0\0\
     XYZI\x04\0\0\0\0\0\0\0\0\0\0\0";

fn shelf(alloc: Global) -> Result<MemoryShelf, Fail> {
    let mut shelf = MemoryShelf::new(alloc);
    shelf.write("wall.vox", &WALL)?;
    shelf.write("shell.vox", &SHELL)?;
    shelf.write("nothing", b"")?;
    Ok(shelf)
}

// The line, its status and what it prints, and the file that it leaves.
const FLOODS: &[(&str, &str, &[u8])] = &[
    ("flood wall.vox 0 0 0 0 out.vox", "1\n", &LEFT),
    ("flood wall.vox 000000 1 00 0 out.vox", "0\n", &NONE),
    ("flood shell.vox 0 1 1 1 out.vox", "1\n", &MIDDLE),
    ("flood shell.vox 0 0 0 0 out.vox", "0\n", &NO_CELL),
];

#[test]
fn a_region_is_written(rt: HostRuntime) -> Result<(), Fail> {
    for &(line, printed, file) in FLOODS {
        let mut shelf = shelf(rt.alloc())?;
        ends(&rt, rt.alloc(), line, &mut shelf, 0, printed)?;
        holds(&shelf, "out.vox", file)?;
    }
    Ok(())
}

const REFUSED: &[(&str, u8, &str)] = &[
    ("flood wall.vox 1 0 0 0 o", 10, "voxdag: no place\n"),
    ("flood wall.vox 0 3 0 0 o", 10, "voxdag: no place\n"),
    ("flood wall.vox 0 0 1 0 o", 10, "voxdag: no place\n"),
    ("flood wall.vox 0 0 0 999999 o", 10, "voxdag: no place\n"),
    ("flood wall.vox 0 65536 0 0 o", 10, "voxdag: no place\n"),
    ("flood no.vox 0 0 0 0 o", 2, "voxdag: missing no.vox\n"),
    ("flood nothing 1 0 0 0 o", 4, "voxdag: vox 1 0\n"),
    ("flood wall.vox 0 0 0 0 wall.vox", 1, "voxdag: usage\n"),
    ("flood wall.vox 0 0 0 0", 1, "voxdag: usage\n"),
    ("flood wall.vox 0 0 0 0 o o", 1, "voxdag: usage\n"),
    ("flood wall.vox 0 0 0 1234567 o", 1, "voxdag: usage\n"),
    ("flood wall.vox 0 0 0 x o", 1, "voxdag: usage\n"),
    ("flood wall.vox 0 -1 0 0 o", 1, "voxdag: usage\n"),
    ("flood wall.vox 0 0 0 0 -o", 1, "voxdag: usage\n"),
    ("flood --side 8 wall.vox 0 0 0 0 o", 1, "voxdag: usage\n"),
];

#[test]
fn a_refused_flood_writes_nothing(rt: HostRuntime) -> Result<(), Fail> {
    let mut shelf = shelf(rt.alloc())?;
    for &(line, status, printed) in REFUSED {
        ends(&rt, rt.alloc(), line, &mut shelf, status, printed)?;
        lacks(&shelf, "o")?;
    }
    Ok(())
}
