use crate::acts::{ball, boxed, cell, record};
use history_model::{Act, History, JournalFault, Mark, Record, journal_text, read_journal};
use std::alloc::{AllocError, Global};
use std::test::Fail;
use vw_cell::Side;

const HEAD: &str = "voxdag journal 1\nside 8\n";

const COLOURED: &str = "voxdag journal 2\nside 8\n";

// The same of coloured histories, whose fills and balls end with their tint.
const BROKEN_TINTS: &[(&str, u32)] = &[
    ("1 0 2 fill 0 0 0 1 1 1\nend\n", 3),
    ("1 0 2 fill 0 0 0 1 1 1 0\nend\n", 3),
    ("1 0 2 fill 0 0 0 1 1 1 256\nend\n", 3),
    ("1 0 2 fill 0 0 0 1 1 1 05\nend\n", 3),
    ("1 0 2 fill 0 0 0 1 1 1 5 5\nend\n", 3),
    ("1 0 2 fill 7 0 0 2 1 1 5\nend\n", 3),
    ("1 0 2 erase 0 0 0 1 1 1 5\nend\n", 3),
    ("1 0 2 ball 0 0 0 1\nend\n", 3),
    ("1 0 2 ball 8 0 0 1 5\nend\n", 3),
    ("1 0 2 carve 0 0 0 1 5\nend\n", 3),
    ("1 0 2 copy 0 0 0 4 1 1 to 5 0 0\nend\n", 3),
    ("1 0 2 stamp 0 8 0 0\nend\n", 3),
    (
        "1 0 2 fill 0 0 0 1 1 1 255\n2 0 3 fill 0 0 0 1 1 1\nend\n",
        4,
    ),
];

// What may stand behind the first two lines, and the number of the first line that doesn't fit.
const BROKEN: &[(&str, u32)] = &[
    ("end\r\n", 3),
    ("End\n", 3),
    ("end \n", 3),
    ("\nend\n", 3),
    ("end\nx", 4),
    ("end\n1 0 2 undo\n", 4),
    ("0 0 2 undo\nend\n", 3),
    ("2 0 2 undo\nend\n", 3),
    ("01 0 2 undo\nend\n", 3),
    ("1 0 2 undo\n1 0 3 undo\nend\n", 4),
    ("1 0 2 undo\n3 0 3 undo\nend\n", 4),
    ("1 0 2 undo\n2 0 3 undo\n", 5),
    ("1 0 2 undo\n2 0 3 undo", 4),
    ("1 00 2 undo\nend\n", 3),
    ("1 0 02 undo\nend\n", 3),
    ("1 -1 2 undo\nend\n", 3),
    ("1 0 undo\nend\n", 3),
    ("1 0 2\nend\n", 3),
    (" 1 0 2 undo\nend\n", 3),
    ("1 0 2 undo \nend\n", 3),
    ("1 0 2\tundo\nend\n", 3),
    ("1 0 2 Undo\nend\n", 3),
    ("1 0 2 undo 1\nend\n", 3),
    ("1 0 2 try fill 0 0 0 1 1 1\nend\n", 3),
    ("1 0 2 get 0 0 0\nend\n", 3),
    ("1 0 2 fill 0 0 0 1 1\nend\n", 3),
    ("1 0 2 fill 0 0 0 1 1 1 1\nend\n", 3),
    ("1 0 2 fill 0 0 0 1 1 0\nend\n", 3),
    ("1 0 2 erase 8 0 0 1 1 1\nend\n", 3),
    ("1 0 2 erase 65536 0 0 1 1 1\nend\n", 3),
    ("1 0 2 ball 8 0 0 1\nend\n", 3),
    ("1 0 2 carve 0 0 0 4096\nend\n", 3),
    ("1 0 2 copy 0 0 0 4 1 1 at 1 0 0\nend\n", 3),
    ("1 0 2 copy 0 0 0 4 1 1 to 5 0 0\nend\n", 3),
    ("1 0 2 stamp 1024 0 0 0\nend\n", 3),
    ("1 0 2 stamp 0 0 8 0\nend\n", 3),
    ("mark 0 0 0 3\nend\n", 3),
    ("mark 0 1 0 3\nend\n", 3),
    ("1 0 2 undo\nmark 0 2 0 3\nend\n", 4),
    ("1 0 2 undo\nmark 0 1 64 3\nend\n", 4),
    ("1 0 2 undo\nmark 0 1 0 4294967296\nend\n", 4),
    ("1 0 2 undo\nmark 0 1 0\nend\n", 4),
    ("1 0 2 undo\nmark 0 1 0 3 3\nend\n", 4),
    ("1 0 2 undo\nmark 00 1 0 3\nend\n", 4),
    ("1 0 2 undo\nMark 0 1 0 3\nend\n", 4),
    (
        "1 0 2 undo\n2 0 3 redo\nmark 1 2 0 4\nmark 0 2 0 5\nend\n",
        6,
    ),
    ("1 0 2 undo\nmark 0 1 0 3\n", 5),
];

fn joined(alloc: Global, front: &str, behind: &str) -> Result<Vec<u8>, AllocError> {
    let mut text = Vec::new(alloc);
    text.extend_from_slice(front.as_bytes())?;
    text.extend_from_slice(behind.as_bytes())?;
    Ok(text)
}

#[test]
fn each_kind_of_broken_line_is_told(rt: HostRuntime) -> Result<(), Fail> {
    for &(behind, line) in BROKEN {
        let text = joined(rt.alloc(), HEAD, behind)?;
        let fault = read_journal(rt.alloc(), &text).err().ok_or("a fault")?;
        assert!(rt; fault == JournalFault::Line(line), "at {behind}");
    }
    Ok(())
}

#[test]
fn each_kind_of_broken_tint_is_told(rt: HostRuntime) -> Result<(), Fail> {
    for &(behind, line) in BROKEN_TINTS {
        let text = joined(rt.alloc(), COLOURED, behind)?;
        let fault = read_journal(rt.alloc(), &text).err().ok_or("a fault")?;
        assert!(rt; fault == JournalFault::Line(line), "at {behind}");
    }
    Ok(())
}

#[test]
fn a_journal_begins_with_its_head(rt: HostRuntime) -> Result<(), Fail> {
    for &(text, line) in &[
        ("voxdag journal 3\nside 8\nend\n", 1),
        ("voxdag journal 2\nside 2\nend\n", 2),
        ("voxdag journal 2\nside 2048\nend\n", 2),
        ("voxdag journal 1 \nside 8\nend\n", 1),
        ("side 8\nend\n", 1),
        ("voxdag journal 1\nend\n", 2),
        ("voxdag journal 1\nside 8", 2),
        ("voxdag journal 1\nside 2\nend\n", 2),
        ("voxdag journal 1\nside 8192\nend\n", 2),
        ("voxdag journal 1\nside  8\nend\n", 2),
        ("voxdag journal 1\nside 8 8\nend\n", 2),
        ("voxdag journal 1\nSide 8\nend\n", 2),
    ] {
        let fault = read_journal(rt.alloc(), text.as_bytes()).err();
        assert!(rt; fault == Some(JournalFault::Line(line)), "at {text}");
    }
    Ok(())
}

// A journal of so many records that are undos.
fn undoes(alloc: Global, records: u32) -> Result<String, Fail> {
    let mut text = String::new(alloc);
    text.push_str(HEAD)?;
    for number in 0..records {
        put_undo(&mut text, number.saturating_add(1))?;
    }
    text.push_str("end\n")?;
    Ok(text)
}

fn put_undo(text: &mut String, number: u32) -> Result<(), AllocError> {
    write!(text, "{number} 0 {number} undo\n")
}

#[test]
fn a_journal_has_at_most_65535_records(rt: HostRuntime) -> Result<(), Fail> {
    let most = undoes(rt.alloc(), 65_535)?;
    let read = read_journal(rt.alloc(), most.as_bytes()).map_err(|_| "a fault")?;
    assert_eq!(rt; read.records.len(), 65_535);
    let over = undoes(rt.alloc(), 65_536)?;
    let fault = read_journal(rt.alloc(), over.as_bytes()).err();
    assert!(rt; fault == Some(JournalFault::Line(65_538)));
    Ok(())
}

// A number that looks random, below this one.
fn drawn(seed: &mut u64, below: u64) -> u16 {
    *seed = seed
        .wrapping_mul(6364136223846793005)
        .wrapping_add(1442695040888963407);
    ((*seed >> 33) % below.clamp(1, 65_536)) as u16
}

// An act in the world of side 4,096.
fn drawn_act(seed: &mut u64) -> Act {
    let at = cell(drawn(seed, 2048), drawn(seed, 2048), drawn(seed, 2048));
    let extent = cell(drawn(seed, 2047), drawn(seed, 9), drawn(seed, 100));
    let size = cell(
        extent.x.saturating_add(1),
        extent.y.saturating_add(1),
        extent.z.saturating_add(1),
    );
    let part = boxed(at, size);
    match drawn(seed, 8) {
        0 => Act::Fill(part),
        1 => Act::Erase(part),
        2 => Act::Ball(ball(at, drawn(seed, 4096))),
        3 => Act::Carve(ball(at, drawn(seed, 4096))),
        4 => Act::Copy(part, cell(drawn(seed, 2048), 0, drawn(seed, 2048))),
        5 => Act::Stamp(drawn(seed, 1024), at),
        6 => Act::Undo,
        _ => Act::Redo,
    }
}

fn drawn_records(alloc: Global, seed: &mut u64, number: u32) -> Result<Vec<Record>, AllocError> {
    let mut records = Vec::new(alloc);
    for _ in 0..number {
        let line = u32::from(drawn(seed, 65_536)).wrapping_mul(65_537);
        records.push(record(drawn(seed, 64), line, drawn_act(seed)))?;
    }
    Ok(records)
}

// Marks of some of the versions below this number, each made when there were so many records.
fn drawn_marks(alloc: Global, seed: &mut u64, number: u32) -> Result<Vec<Mark>, AllocError> {
    let mut marks = Vec::new(alloc);
    for version in 0..number {
        if drawn(seed, 3) == 0 {
            marks.push(Mark {
                version,
                at: number,
                session: drawn(seed, 64),
                line: u32::from(drawn(seed, 65_536)),
            })?;
        }
    }
    Ok(marks)
}

#[test]
fn generated_histories_are_read_back(rt: HostRuntime) -> Result<(), Fail> {
    let mut seed: u64 = 11;
    for number in [0, 1, 7, 1000] {
        let side = Side::new(4096).ok_or("a side")?;
        let records = drawn_records(rt.alloc(), &mut seed, number)?;
        let marks = drawn_marks(rt.alloc(), &mut seed, number)?;
        let history = History {
            side,
            coloured: false,
            records,
            marks,
        };
        let text = journal_text(rt.alloc(), &history).map_err(|_| "out of memory")?;
        let read = read_journal(rt.alloc(), &text).map_err(|_| "a fault")?;
        assert!(rt;
            read.side == history.side && read.records.as_slice() == history.records.as_slice(),
            "{number}"
        );
        assert!(rt;
            read.marks.as_slice() == history.marks.as_slice(),
            "{number}"
        );
    }
    Ok(())
}
