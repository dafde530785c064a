//! The shelf over real files. Each test has a folder of its own below the one that it runs in, and
//! takes it away whatever comes.
use std::alloc::Global;
use std::fs;
use std::test::Fail;
use vw_io::{FileShelf, ReadRefused, Shelf};

/// More than three pieces of one read.
const LONG: usize = 3 * (1 << 20) + 5;

// So many bytes, which differ from place to place.
fn numbered(alloc: Global, length: usize) -> Result<Vec<u8>, Fail> {
    let mut bytes = Vec::with_capacity(alloc, length)?;
    for place in 0..length {
        bytes.push((place % 251) as u8)?;
    }
    Ok(bytes)
}

// Found is what is wanted; else how long both are, and where they part.
fn is_wanted(name: &str, found: &[u8], want: &[u8]) -> Result<(), Fail> {
    if found == want {
        return Ok(());
    }
    let mut at: usize = 0;
    for (there, wanted) in found.iter().zip(want) {
        if there != wanted {
            break;
        }
        at = at.saturating_add(1);
    }
    let (there, wanted) = (found.len(), want.len());
    Err(Fail::new(format_args!("{name}: {there} bytes, wanted are {wanted}, the same up to {at}")))
}

/// How long a file is, the most bytes of a read, and whether it is read.
const READS: &[(usize, u64, bool)] = &[
    (0, 0, true),
    (0, 1, true),
    (0, 2 * LONG as u64, true),
    (1, 0, false),
    (1, 1, true),
    (1, 2, true),
    (1, 2 * LONG as u64, true),
    (64, 32, false),
    (64, 63, false),
    (64, 64, true),
    (64, 65, true),
    (64, 2 * LONG as u64, true),
    (65, 32, false),
    (65, 64, false),
    (65, 65, true),
    (65, 66, true),
    (65, 2 * LONG as u64, true),
    (LONG, LONG as u64 / 2, false),
    (LONG, LONG as u64 - 1, false),
    (LONG, LONG as u64, true),
    (LONG, LONG as u64 + 1, true),
    (LONG, 2 * LONG as u64, true),
];

// The answer to a read, and the bytes that came with it.
fn is_answered(
    answer: Result<(), ReadRefused>,
    want: Result<(), ReadRefused>,
    found: &[u8],
    bytes: &[u8],
) -> Result<(), Fail> {
    if answer != want {
        return Err(Fail::new(format_args!("{answer:?}, wanted is {want:?}")));
    }
    is_wanted("there", found, bytes)
}

// Reads a file of this length by a shelf.
fn is_read(rt: &HostRuntime, length: usize, limit: u64, fits: bool) -> Result<(), Fail> {
    let bytes = numbered(rt.alloc(), length)?;
    fs::write(rt, "files_are_read/there", bytes.as_slice())?;
    let mut shelf = FileShelf::new(rt);
    let mut into = Vec::new(rt.alloc());
    let answer = shelf.read("files_are_read/there", limit, &mut into);
    if fits {
        is_answered(answer, Ok(()), into.as_slice(), bytes.as_slice())
    } else {
        is_answered(answer, Err(ReadRefused::TooLong), into.as_slice(), &[])
    }
}

fn are_read(rt: &HostRuntime) -> Result<(), Fail> {
    for &(length, limit, fits) in READS {
        is_read(rt, length, limit, fits)?;
    }
    Ok(())
}

#[test]
fn files_are_read(rt: HostRuntime) -> Result<(), Fail> {
    fs::create_dir_all(&rt, "files_are_read")?;
    let read = are_read(&rt);
    let removed = fs::remove_dir_all(&rt, "files_are_read");
    read?;
    removed?;
    Ok(())
}

// Reads a file as if it were a folder.
fn is_no_folder(rt: &HostRuntime) -> Result<(), Fail> {
    fs::write(rt, "a_file_is_no_folder/alone", b"bytes")?;
    let mut shelf = FileShelf::new(rt);
    let mut into = Vec::new(rt.alloc());
    let answer = shelf.read("a_file_is_no_folder/alone/in", 9, &mut into);
    is_answered(answer, Err(ReadRefused::Failed), into.as_slice(), &[])
}

#[test]
fn a_file_is_no_folder(rt: HostRuntime) -> Result<(), Fail> {
    fs::create_dir_all(&rt, "a_file_is_no_folder")?;
    let read = is_no_folder(&rt);
    let removed = fs::remove_dir_all(&rt, "a_file_is_no_folder");
    read?;
    removed?;
    Ok(())
}

/// Files that are written one after the other, and how long they are.
const WRITES: &[(&str, usize)] = &[
    ("files_are_written/a", 0),
    ("files_are_written/b", 1),
    ("files_are_written/c", LONG),
    ("files_are_written/c", 64),
    ("files_are_written/c", 65),
    ("files_are_written/c", 0),
];

// Writes so many bytes by a shelf, and reads them back.
fn is_written(rt: &HostRuntime, name: &str, length: usize) -> Result<(), Fail> {
    let bytes = numbered(rt.alloc(), length)?;
    let mut shelf = FileShelf::new(rt);
    shelf.write(name, bytes.as_slice())?;
    let found = fs::read(rt, name)?;
    is_wanted(name, found.as_slice(), bytes.as_slice())
}

fn are_written(rt: &HostRuntime) -> Result<(), Fail> {
    for &(name, length) in WRITES {
        is_written(rt, name, length)?;
    }
    // later writes leave it alone
    let found = fs::read(rt, "files_are_written/b")?;
    is_wanted("files_are_written/b", found.as_slice(), b"\0")
}

#[test]
fn files_are_written(rt: HostRuntime) -> Result<(), Fail> {
    fs::create_dir_all(&rt, "files_are_written")?;
    let written = are_written(&rt);
    let removed = fs::remove_dir_all(&rt, "files_are_written");
    written?;
    removed?;
    Ok(())
}
