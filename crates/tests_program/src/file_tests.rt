//! The top call over real files, in a folder of its own that goes whatever comes of the test.
use crate::calls::{ANSWERS, GOOD, JOURNAL, ONE, REPORT, TWO, ends, is_wanted};
use std::alloc::Global;
use std::fs;
use std::rt::Files;
use std::sync::Wait;
use std::test::Fail;
use std::thread::Threads;
use vw_io::FileShelf;

const FOLDER: &str = "top_call_over_files";

const LINES: &[(&str, u8, &str)] = &[
    (
        "run --side 8 --journal top_call_over_files/j --report top_call_over_files/p \
         top_call_over_files/one.vox top_call_over_files/s",
        0,
        TWO,
    ),
    ("count top_call_over_files/one.vox", 0, "1\n"),
    (
        "count top_call_over_files/no.vox",
        2,
        "voxdag: missing top_call_over_files/no.vox\n",
    ),
    (
        "run --side 8 --journal top_call_over_files/no/j top_call_over_files/one.vox \
         top_call_over_files/s",
        6,
        "voxdag: write fault top_call_over_files/no/j\n",
    ),
];

const LEFT: &[(&str, &str)] = &[
    ("top_call_over_files/s.out", ANSWERS),
    ("top_call_over_files/j", JOURNAL),
    ("top_call_over_files/p", REPORT),
    ("top_call_over_files/s", GOOD),
];

fn are_made(rt: &HostRuntime) -> Result<(), Fail> {
    fs::write(rt, "top_call_over_files/one.vox", ONE.as_slice())?;
    fs::write(rt, "top_call_over_files/s", GOOD)?;
    Ok(())
}

fn have_ended<R: Files + Threads + Wait + Sync>(rt: &R, alloc: Global) -> Result<(), Fail> {
    let mut shelf = FileShelf::new(rt);
    for &(line, status, printed) in LINES {
        ends(rt, alloc, line, &mut shelf, status, printed)?;
    }
    Ok(())
}

fn are_left(rt: &HostRuntime) -> Result<(), Fail> {
    for &(name, want) in LEFT {
        let found = fs::read(rt, name)?;
        is_wanted(name, found.as_slice(), want.as_bytes())?;
    }
    let found = fs::read(rt, "top_call_over_files/one.vox")?;
    is_wanted("one.vox", found.as_slice(), &ONE)
}

fn are_run<R: Files + Threads + Wait + Sync>(
    host: &HostRuntime,
    rt: &R,
    alloc: Global,
) -> Result<(), Fail> {
    are_made(host)?;
    have_ended(rt, alloc)?;
    are_left(host)
}

#[test]
fn a_run_over_real_files(rt: HostRuntime) -> Result<(), Fail> {
    fs::create_dir_all(&rt, FOLDER)?;
    let run = are_run(&rt, &rt, rt.alloc());
    let removed = fs::remove_dir_all(&rt, FOLDER);
    run?;
    removed?;
    Ok(())
}
