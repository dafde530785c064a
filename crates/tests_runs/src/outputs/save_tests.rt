//! Scripts that save boxes as files.

use std::alloc::{AllocError, Global};
use std::sync::Wait;
use std::test::Fail;
use std::thread::Threads;
use tests_program::{
    ONE, ask, ends, has, holds, is_end, is_wanted, lacks, one_fault, repeated, shelf_with,
};
use vw_io::{FaultyShelf, MemoryShelf, Shelf};

// The file of a model of size 1 1 1 without a voxel: 60 bytes, and MAIN has 40 behind it.
const NO_CELL: [u8; 60] =
    *b"VOX \x96\0\0\0MAIN\0\0\0\0\x28\0\0\0SIZE\x0c\0\0\0\0\0\0\0\x01\0\0\0\x01\0\0\0\x01\0\0\0\
     XYZI\x04\0\0\0\0\0\0\0\0\0\0\0";

// The cells (1,0,0), (0,1,0) and (1,1,1) of a box of 2 cells a side, by rising z, then y, then x.
const THREE: [u8; 72] =
    *b"VOX \x96\0\0\0MAIN\0\0\0\0\x34\0\0\0SIZE\x0c\0\0\0\0\0\0\0\x02\0\0\0\x02\0\0\0\x02\0\0\0\
     XYZI\x10\0\0\0\0\0\0\0\x03\0\0\0\x01\0\0\x01\0\x01\0\x01\x01\x01\x01\x01";

// A shelf after a run of these lines at side 8, which ends in status 0.
fn saved<R: Threads + Wait + Sync>(
    rt: &R,
    alloc: Global,
    script: &str,
) -> Result<MemoryShelf, Fail> {
    let mut shelf = shelf_with(alloc, script.as_bytes())?;
    let line = "run --side 8 one.vox s";
    let (ended, _) = ask(rt, alloc, line, &mut shelf)?;
    is_end(line, ended, b"", 0, "")?;
    Ok(shelf)
}

#[test]
fn boxes_are_saved(rt: HostRuntime) -> Result<(), Fail> {
    let script = "fill 3 3 3 1 1 1\nsave a.vox 3 3 3 1 1 1\nsave b.vox 0 0 0 1 1 1\n";
    let mut shelf = saved(&rt, rt.alloc(), script)?;
    has(&shelf, "s.out", "1 @1 ok\n2 @1 saved 1\n3 @1 saved 0\n")?;
    holds(&shelf, "a.vox", &ONE)?;
    holds(&shelf, "b.vox", &NO_CELL)?;
    ends(&rt, rt.alloc(), "count a.vox", &mut shelf, 0, "1\n")
}

#[test]
fn cells_come_by_z_then_y_then_x(rt: HostRuntime) -> Result<(), Fail> {
    let script = "fill 5 6 5 1 1 1\nfill 6 5 5 1 1 1\nfill 6 6 6 1 1 1\nsave t 5 5 5 2 2 2\n";
    let shelf = saved(&rt, rt.alloc(), script)?;
    holds(&shelf, "t", &THREE)
}

const OLD: &str = "fill 3 3 3 1 1 1\nerase 0 0 0 8 8 8\nat 1 save a.vox 3 3 3 1 1 1\nforget 1\n\
     save b.vox 3 3 3 1 1 1\nat 1 save c.vox 3 3 3 1 1 1\nat 3 save d.vox 3 3 3 1 1 1\n";

const OLD_ANSWERS: &str =
    "1 @1 ok\n2 @2 ok\n3 @2 saved 1\n4 @2 forgot 1\n5 @2 saved 0\n6 @2 forgotten 1\n\
     7 @2 no version 3\n";

const OLD_REPORT: &str =
    "voxdag report 1\nside 8\nrecords 2\nmarks 1\nversion 0 empty\nversion 2 empty\n\
     level 0 nodes 0\nlevel 1 nodes 0\n";

// A version is saved as it was, also where it is forgotten afterwards, and nothing of it is left in
// the store. One that is not there or was forgotten before is not saved.
#[test]
fn old_versions_are_saved(rt: HostRuntime) -> Result<(), Fail> {
    let mut shelf = shelf_with(rt.alloc(), OLD.as_bytes())?;
    let line = "run --side 8 --report p one.vox s";
    let printed = "scripts 1 records 2 marks 1 nodes 0\n";
    ends(&rt, rt.alloc(), line, &mut shelf, 0, printed)?;
    are_saved(&shelf)
}

fn are_saved(shelf: &MemoryShelf) -> Result<(), Fail> {
    has(shelf, "s.out", OLD_ANSWERS)?;
    has(shelf, "p", OLD_REPORT)?;
    holds(shelf, "a.vox", &ONE)?;
    holds(shelf, "b.vox", &NO_CELL)?;
    lacks(shelf, "c.vox")?;
    lacks(shelf, "d.vox")
}

// Transcripts are written first, then the saved files by script and line, then the journal. The
// call that fails, the line, and how many outputs are whole.
const FAILS: &[(u32, &str, usize)] = &[
    (4, "voxdag: write fault s.out\n", 0),
    (5, "voxdag: write fault t.out\n", 1),
    (6, "voxdag: write fault b\n", 2),
    (7, "voxdag: write fault a\n", 3),
    (8, "voxdag: write fault j\n", 4),
];

// The outputs in their order, the last one left out. Nothing went through of the one that failed.
const OUTPUTS: &[(&str, &[u8])] = &[
    ("s.out", b"1 @0 saved 0\n"),
    ("t.out", b"1 @0 saved 0\n"),
    ("b", &NO_CELL),
    ("a", &NO_CELL),
    ("j", b""),
];

fn is_cut<R: Threads + Wait + Sync>(
    rt: &R,
    alloc: Global,
    call: u32,
    printed: &str,
    whole: usize,
) -> Result<(), Fail> {
    let mut inner = shelf_with(alloc, b"save b 0 0 0 1 1 1\n")?;
    inner.write("t", b"save a 0 0 0 1 1 1\n")?;
    let mut shelf = FaultyShelf::new(inner, one_fault(alloc, call, 0)?);
    let line = "run --side 8 --journal j one.vox s t";
    ends(rt, alloc, line, &mut shelf, 6, printed)?;
    are_whole(shelf.files(), whole)
}

// So many of the outputs are whole, and none behind them has a byte.
fn are_whole(shelf: &MemoryShelf, whole: usize) -> Result<(), Fail> {
    for (k, &(name, want)) in OUTPUTS.iter().enumerate() {
        let want: &[u8] = if k < whole { want } else { b"" };
        is_wanted(name, shelf.file(name).unwrap_or_default(), want)?;
    }
    Ok(())
}

#[test]
fn each_saved_file_can_fail(rt: HostRuntime) -> Result<(), Fail> {
    for &(call, printed, whole) in FAILS {
        is_cut(&rt, rt.alloc(), call, printed, whole)?;
    }
    Ok(())
}

// Such a script is refused with its words, and has no transcript.
fn is_usage<R: Threads + Wait + Sync>(rt: &R, alloc: Global, script: &str) -> Result<(), Fail> {
    let mut shelf = shelf_with(alloc, script.as_bytes())?;
    let line = "run --side 8 --journal j one.vox s";
    ends(rt, alloc, line, &mut shelf, 1, "voxdag: usage\n")?;
    lacks(&shelf, "s.out")
}

#[test]
fn saved_names_must_be_free(rt: HostRuntime) -> Result<(), Fail> {
    for &script in &[
        "save one.vox 0 0 0 1 1 1\n",
        "save s 0 0 0 1 1 1\n",
        "save s.out 0 0 0 1 1 1\n",
        "save j 0 0 0 1 1 1\n",
        "save a 0 0 0 1 1 1\nsave a 0 0 0 1 1 1\n",
        "at 9 save a 0 0 0 1 1 1\nsave a 0 0 0 1 1 1\n",
    ] {
        is_usage(&rt, rt.alloc(), script)?;
    }
    Ok(())
}

// A floor of 126 by 126 cells, stamped twice and copied; what is saved is from before the copy.
#[test]
fn a_floor_is_saved(rt: HostRuntime) -> Result<(), Fail> {
    let script =
        "stamp 0 0 0 0\nstamp 0 126 0 0\ncount 0 0 0 256 256 256\ncopy 0 0 0 126 126 1 to 0 126 0\n\
         count 0 0 0 256 256 256\nundo\nsave floor.vox 0 0 0 252 126 1\n";
    let mut shelf = shelf_with(rt.alloc(), script.as_bytes())?;
    let model = floor(rt.alloc())?;
    shelf.write("model.vox", model.as_slice())?;
    let (ended, _) = ask(&rt, rt.alloc(), "run model.vox s", &mut shelf)?;
    is_end("run model.vox s", ended, b"", 0, "")?;
    let want = "1 @1 ok\n2 @2 ok\n3 @2 count 31752\n4 @3 ok\n5 @3 count 47628\n6 @4 ok\n\
                7 @4 saved 31752\n";
    has(&shelf, "s.out", want)?;
    let file = shelf.file("floor.vox").unwrap_or_default();
    assert_eq!(rt; file.len(), 127_068);
    Ok(())
}

// The file of a model of size 126 126 126 whose cells are its floor.
fn floor(alloc: Global) -> Result<Vec<u8>, Fail> {
    let mut file = Vec::from_slice(
        alloc,
        b"VOX \x96\0\0\0MAIN\0\0\0\0\x38\xf8\0\0SIZE\x0c\0\0\0\0\0\0\0\x7e\0\0\0\x7e\0\0\0\x7e\0\0\0\
XYZI\x14\xf8\0\0\0\0\0\0\x04\x3e\0\0",
    )?;
    for cell in 0..15_876u16 {
        let x = (cell % 126) as u8;
        let y = (cell / 126) as u8;
        file.extend_from_slice(&[x, y, 0, 1])?;
    }
    Ok(file)
}

// A script of so many saves ends so.
fn is_ended<R: Threads + Wait + Sync>(
    rt: &R,
    alloc: Global,
    saves: u32,
    status: u8,
    printed: &str,
) -> Result<(), Fail> {
    let script = repeated(alloc, "save a 0 0 0 1 1 1\n", saves)?;
    let mut shelf = shelf_with(alloc, script.as_slice())?;
    ends(
        rt,
        alloc,
        "run --side 8 one.vox s",
        &mut shelf,
        status,
        printed,
    )
}

#[test]
fn a_script_saves_16_times(rt: HostRuntime) -> Result<(), Fail> {
    for &(saves, status, printed) in &[
        (16, 1, "voxdag: usage\n"),
        (17, 5, "voxdag: script 0 17 8\n"),
    ] {
        is_ended(&rt, rt.alloc(), saves, status, printed)?;
    }
    Ok(())
}

// A name of 64 characters, of each kind that a name may have, and of 65.
const LONGEST: &str = "0.a-z_A-Z.9-0.a-z_A-Z.9-0.a-z_A-Z.9-0.a-z_A-Z.9-0.a-z_A-Z.9-vox_";

const LONGER: &str = "0.a-z_A-Z.9-0.a-z_A-Z.9-0.a-z_A-Z.9-0.a-z_A-Z.9-0.a-z_A-Z.9-vox_0";

fn script_of(alloc: Global, name: &str) -> Result<String, AllocError> {
    format!(in alloc; "fill 0 0 0 1 1 1\nsave {name} 0 0 0 1 1 1\n")
}

#[test]
fn names_have_64_characters(rt: HostRuntime) -> Result<(), Fail> {
    let script = script_of(rt.alloc(), LONGEST)?;
    let shelf = saved(&rt, rt.alloc(), script.as_str())?;
    has(&shelf, "s.out", "1 @1 ok\n2 @1 saved 1\n")?;
    holds(&shelf, LONGEST, &ONE)
}

#[test]
fn longer_names_are_refused(rt: HostRuntime) -> Result<(), Fail> {
    let script = script_of(rt.alloc(), LONGER)?;
    let mut shelf = shelf_with(rt.alloc(), script.as_bytes())?;
    let line = "run --side 8 one.vox s";
    ends(
        &rt,
        rt.alloc(),
        line,
        &mut shelf,
        5,
        "voxdag: script 0 2 3\n",
    )?;
    lacks(&shelf, LONGER)
}
