use crate::acts::{ball, boxed, cell, record};
use history_model::{
    Act, History, JournalFault, Mark, Record, TintAct, journal_text, position, read_journal,
};
use std::alloc::Global;
use std::test::Fail;
use vw_cell::{Boxed, Cell, Side};

fn two_marks(alloc: Global) -> Result<Vec<Mark>, Fail> {
    Ok(vec![in alloc;
        Mark {
            version: 3,
            at: 5,
            session: 1,
            line: 9
        },
        Mark {
            version: 4,
            at: 8,
            session: 0,
            line: 10
        },
    ]?)
}

const UNDOES: &str = "voxdag journal 1\n\
    side 8\n\
    1 0 2 fill 0 0 0 1 1 1\n\
    2 0 3 undo\n\
    3 0 4 fill 1 0 0 1 1 1\n\
    4 0 6 undo\n\
    end\n";

// The records of that journal.
const UNDONE: [Record; 4] = [
    Record {
        session: 0,
        line: 2,
        act: Act::Fill(FIRST),
    },
    Record {
        session: 0,
        line: 3,
        act: Act::Undo,
    },
    Record {
        session: 0,
        line: 4,
        act: Act::Fill(SECOND),
    },
    Record {
        session: 0,
        line: 6,
        act: Act::Undo,
    },
];

const FIRST: Boxed = Boxed {
    at: Cell { x: 0, y: 0, z: 0 },
    size: Cell { x: 1, y: 1, z: 1 },
};

const SECOND: Boxed = Boxed {
    at: Cell { x: 1, y: 0, z: 0 },
    size: Cell { x: 1, y: 1, z: 1 },
};

const EVERY_ACT: &str = "voxdag journal 1\n\
    side 4096\n\
    1 0 1 fill 0 1 2 3 4 5\n\
    2 1 70000 erase 10 0 0 1 1 1\n\
    3 63 3 ball 4 5 6 4095\n\
    4 0 4 carve 4000 5 6 0\n\
    5 0 5 copy 0 0 0 4 1 2 to 1 0 3\n\
    6 2 6 stamp 1023 1 2 3\n\
    7 0 7 undo\n\
    8 0 8 redo\n\
    mark 3 5 1 9\n\
    mark 4 8 0 10\n\
    end\n";

const EVERY_TINT: &str = "voxdag journal 2\n\
    side 1024\n\
    1 0 1 fill 0 1 2 3 4 5 255\n\
    2 1 70000 erase 10 0 0 1 1 1\n\
    3 63 3 ball 4 5 6 4095 1\n\
    4 0 4 carve 1000 5 6 0\n\
    5 0 5 copy 0 0 0 4 1 2 to 1 0 3\n\
    6 2 6 stamp 1023 1 2 3\n\
    7 0 7 undo\n\
    8 0 8 redo\n\
    end\n";

#[test]
fn coloured_journals_are_exact(rt: HostRuntime) -> Result<(), Fail> {
    let one = cell(1, 1, 1);
    let origin = cell(0, 0, 0);
    let wide = ball(cell(4, 5, 6), 4095);
    let point = ball(cell(1000, 5, 6), 0);
    let part = boxed(cell(0, 1, 2), cell(3, 4, 5));
    let from = boxed(origin, cell(4, 1, 2));
    let history = History {
        side: Side::new(4096).ok_or("a side")?,
        coloured: true,
        records: vec![in rt.alloc();
            record(0, 1, Act::Tint(TintAct::Fill(part, 255))),
            record(
                1,
                70000,
                Act::Tint(TintAct::Erase(boxed(cell(10, 0, 0), one)))
            ),
            record(63, 3, Act::Tint(TintAct::Ball(wide, 1))),
            record(0, 4, Act::Tint(TintAct::Carve(point))),
            record(0, 5, Act::Tint(TintAct::Copy(from, cell(1, 0, 3)))),
            record(2, 6, Act::Tint(TintAct::Stamp(1023, cell(1, 2, 3)))),
            record(0, 7, Act::Undo),
            record(0, 8, Act::Redo),
        ]?,
        marks: Vec::new(rt.alloc()),
    };
    let text = journal_text(rt.alloc(), &history).map_err(|_| "out of memory")?;
    assert!(rt; text.as_slice() == EVERY_TINT.as_bytes());
    Ok(())
}

#[test]
fn journals_are_exact(rt: HostRuntime) -> Result<(), Fail> {
    let one = cell(1, 1, 1);
    let origin = cell(0, 0, 0);
    let wide = ball(cell(4, 5, 6), 4095);
    let point = ball(cell(4000, 5, 6), 0);
    let undoes = vec![in rt.alloc();
        record(0, 2, Act::Fill(boxed(origin, one))),
        record(0, 3, Act::Undo),
        record(0, 4, Act::Fill(boxed(cell(1, 0, 0), one))),
        record(0, 6, Act::Undo),
    ]?;
    let every_act = vec![in rt.alloc();
        record(0, 1, Act::Fill(boxed(cell(0, 1, 2), cell(3, 4, 5)))),
        record(1, 70000, Act::Erase(boxed(cell(10, 0, 0), one))),
        record(63, 3, Act::Ball(wide)),
        record(0, 4, Act::Carve(point)),
        record(0, 5, Act::Copy(boxed(origin, cell(4, 1, 2)), cell(1, 0, 3))),
        record(2, 6, Act::Stamp(1023, cell(1, 2, 3))),
        record(0, 7, Act::Undo),
        record(0, 8, Act::Redo),
    ]?;
    for (side, records, marks, want) in [
        (8, undoes, vec![in rt.alloc()]?, UNDOES),
        (4096, every_act, two_marks(rt.alloc())?, EVERY_ACT),
    ] {
        let side = Side::new(side).ok_or("a side")?;
        let history = History {
            side,
            coloured: false,
            records,
            marks,
        };
        let text = journal_text(rt.alloc(), &history).map_err(|_| "out of memory")?;
        assert!(rt; text.as_slice() == want.as_bytes(), "side {}", side.cells());
    }
    Ok(())
}

#[test]
fn histories_stand_somewhere(rt: HostRuntime) -> Result<(), Fail> {
    let one = boxed(cell(0, 0, 0), cell(1, 1, 1));
    let records = vec![in rt.alloc();
        record(0, 2, Act::Fill(one)),
        record(0, 3, Act::Undo),
        record(0, 4, Act::Fill(one)),
        record(0, 5, Act::Fill(one)),
        record(0, 6, Act::Undo),
    ]?;
    let here = position(rt.alloc(), records.as_slice()).map_err(|_| "out of memory")?;
    assert!(rt; here.now == 3);
    assert_eq!(rt; here.past.as_slice(), [0].as_slice());
    assert_eq!(rt; here.future.as_slice(), [4].as_slice());
    Ok(())
}

// Both edits are undone, and the second is what a redo would do again.
#[test]
fn a_history_of_two_undos_stands_at_its_beginning(rt: HostRuntime) -> Result<(), Fail> {
    let undone = UNDONE;
    let here = position(rt.alloc(), &undone).map_err(|_| "out of memory")?;
    assert_eq!(rt; here.now, 0);
    assert_eq!(rt; here.past.len(), 0);
    assert_eq!(rt; here.future.as_slice(), [3].as_slice());
    Ok(())
}

#[test]
fn a_journal_gives_its_records(rt: HostRuntime) -> Result<(), Fail> {
    let history = read_journal(rt.alloc(), UNDOES.as_bytes()).map_err(|_| "a fault")?;
    let undone = UNDONE;
    assert_eq!(rt; history.side.cells(), 8);
    assert_eq!(rt; history.coloured, false);
    assert_eq!(rt; history.records.as_slice(), undone.as_slice());
    assert_eq!(rt; history.marks.len(), 0);
    Ok(())
}

#[test]
fn journals_are_read(rt: HostRuntime) -> Result<(), Fail> {
    for text in [
        UNDOES,
        EVERY_ACT,
        EVERY_TINT,
        "voxdag journal 1\nside 4\nend\n",
        "voxdag journal 2\nside 4\nend\n",
    ] {
        let history = read_journal(rt.alloc(), text.as_bytes()).map_err(|_| "a fault")?;
        let again = journal_text(rt.alloc(), &history).map_err(|_| "out of memory")?;
        assert!(rt; again.as_slice() == text.as_bytes(), "at {text}");
    }
    Ok(())
}

// Texts that are no journal, and the first line with which none goes on.
const BROKEN: &[(&str, u32)] = &[
    ("", 1),
    ("voxdag journal 1", 1),
    ("voxdag journal 1\n", 2),
    ("voxdag journal 1\nside 6\nend\n", 2),
    ("voxdag journal 1\nside 08\nend\n", 2),
    ("voxdag journal 1\nside 8\n", 3),
    ("voxdag journal 1\nside 8\nend", 3),
    ("voxdag journal 1\nside 8\nend\n\n", 4),
    ("voxdag journal 1\nside 8\nend\nend\n", 4),
    ("voxdag journal 1\nside 8\n1 0 2 fill 0 0 0 9 1 1\nend\n", 3),
    (
        "voxdag journal 1\nside 8\n1 0 2 fill 0 0 0 1 1 01\nend\n",
        3,
    ),
    (
        "voxdag journal 1\nside 8\n1 0 2 fill  0 0 0 1 1 1\nend\n",
        3,
    ),
    ("voxdag journal 1\nside 8\n1 64 2 undo\nend\n", 3),
    (
        "voxdag journal 1\nside 8\n1 0 4294967295 undo\n1 0 3 redo\nend\n",
        4,
    ),
    ("voxdag journal 1\nside 8\n1 0 4294967296 undo\nend\n", 3),
    (
        "voxdag journal 1\nside 8\n1 0 2 undo\nmark 1 1 0 3\nend\n",
        4,
    ),
    (
        "voxdag journal 1\nside 8\n1 0 2 undo\nmark 0 1 0 3\nmark 0 1 0 4\nend\n",
        5,
    ),
    (
        "voxdag journal 1\nside 8\n1 0 2 undo\nmark 0 1 0 3\n2 0 3 undo\nend\n",
        5,
    ),
];

#[test]
fn the_first_line_that_does_not_fit_is_told(rt: HostRuntime) -> Result<(), Fail> {
    for &(text, line) in BROKEN {
        let fault = read_journal(rt.alloc(), text.as_bytes())
            .err()
            .ok_or("a fault")?;
        assert!(rt; fault == JournalFault::Line(line), "at {text}");
    }
    Ok(())
}
