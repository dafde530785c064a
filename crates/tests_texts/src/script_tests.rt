use crate::acts::{ONE, boxed, cell};
use history_model::{Act, Question, TintAct, Way};
use script::{Command, ScriptLine, number, read_script};
use std::test::Fail;
use vox_read::read_models;
use vw_cell::{Ball, Boxed, Cell, Side};

fn ask(question: Question) -> Command {
    Command::Ask {
        version: None,
        question,
    }
}

fn ask_of(version: u32, question: Question) -> Command {
    Command::Ask {
        version: Some(version),
        question,
    }
}

// Whether the script has this one command, on line 1.
fn is_only(lines: &[ScriptLine], command: Command) -> bool {
    match lines {
        [one] => one.line == 1 && one.command == command,
        _ => false,
    }
}

const ORIGIN: Cell = Cell { x: 0, y: 0, z: 0 };

const UNIT: Boxed = Boxed {
    at: ORIGIN,
    size: Cell { x: 1, y: 1, z: 1 },
};

const ALL: Boxed = Boxed {
    at: ORIGIN,
    size: Cell {
        x: 4096,
        y: 4096,
        z: 4096,
    },
};

const ROW: Boxed = Boxed {
    at: ORIGIN,
    size: Cell { x: 4, y: 1, z: 1 },
};

const NEXT: Cell = Cell { x: 1, y: 0, z: 0 };

const LAST: Cell = Cell {
    x: 4095,
    y: 4095,
    z: 4095,
};

const WIDE: Ball = Ball {
    centre: Cell { x: 4, y: 5, z: 6 },
    radius: 4095,
};

const POINT: Ball = Ball {
    centre: Cell {
        x: 4095,
        y: 0,
        z: 7,
    },
    radius: 0,
};

const CHANGES: &[(&str, Act)] = &[
    ("fill 0 0 0 1 1 1", Act::Fill(UNIT)),
    ("fill 0 0 0 1 1 1\n", Act::Fill(UNIT)),
    ("fill 0 0 0 1 1 1\r\n", Act::Fill(UNIT)),
    ("\t fill\t 0  0 0\t\t1 1 1 \t\n", Act::Fill(UNIT)),
    ("fill 000000000 00 0 000000001 01 1", Act::Fill(UNIT)),
    ("erase 0 0 0 4096 4096 4096", Act::Erase(ALL)),
    ("ball 4 5 6 4095", Act::Ball(WIDE)),
    ("carve 4095 0 7 0", Act::Carve(POINT)),
    ("copy 0 0 0 4 1 1 to 1 0 0", Act::Copy(ROW, NEXT)),
    ("stamp 0 4095 4095 4095", Act::Stamp(0, LAST)),
    ("undo", Act::Undo),
    ("redo", Act::Redo),
];

const ATTEMPTS: &[(&str, Act)] = &[
    ("try fill 0 0 0 1 1 1", Act::Fill(UNIT)),
    ("\ttry  erase 0 0 0 4096 4096 4096 \n", Act::Erase(ALL)),
    ("try ball 4 5 6 4095", Act::Ball(WIDE)),
    ("try carve 4095 0 7 0", Act::Carve(POINT)),
    ("try copy 0 0 0 4 1 1 to 1 0 0", Act::Copy(ROW, NEXT)),
    ("try stamp 0 4095 4095 4095", Act::Stamp(0, LAST)),
];

// Changes of a world whose cells have tints.
const TINTED: &[(&str, Act)] = &[
    ("fill 0 0 0 1 1 1", Act::Tint(TintAct::Fill(UNIT, 1))),
    ("fill 0 0 0 1 1 1 5", Act::Tint(TintAct::Fill(UNIT, 5))),
    (
        "fill 0 0 0 1 1 1 \t000000255 \r\n",
        Act::Tint(TintAct::Fill(UNIT, 255)),
    ),
    ("erase 0 0 0 4096 4096 4096", Act::Tint(TintAct::Erase(ALL))),
    ("ball 4 5 6 4095", Act::Tint(TintAct::Ball(WIDE, 1))),
    ("ball 4 5 6 4095 7", Act::Tint(TintAct::Ball(WIDE, 7))),
    ("carve 4095 0 7 0", Act::Tint(TintAct::Carve(POINT))),
    (
        "copy 0 0 0 4 1 1 to 1 0 0",
        Act::Tint(TintAct::Copy(ROW, NEXT)),
    ),
    ("stamp 0 4095 4095 4095", Act::Tint(TintAct::Stamp(0, LAST))),
    ("undo", Act::Undo),
    ("redo", Act::Redo),
];

const TINTED_ATTEMPTS: &[(&str, Act)] = &[
    ("try fill 0 0 0 1 1 1", Act::Tint(TintAct::Fill(UNIT, 1))),
    (
        "try ball 4 5 6 4095 255",
        Act::Tint(TintAct::Ball(WIDE, 255)),
    ),
    ("try carve 4095 0 7 0", Act::Tint(TintAct::Carve(POINT))),
];

fn questions(way: Way, back: Way) -> [(&'static str, Command); 14] {
    let part = boxed(cell(1, 2, 3), cell(4, 5, 6));
    [
        ("get 4095 0 0", ask(Question::Get(cell(4095, 0, 0)))),
        ("count 1 2 3 4 5 6", ask(Question::Count(part))),
        ("faces 1 2 3 4 5 6", ask(Question::Faces(part))),
        ("bounds", ask(Question::Bounds)),
        ("ray 0 1 0 1 -1 0", ask(Question::Ray(cell(0, 1, 0), way))),
        (
            "ray 0 1 0 -1024 01024 -0",
            ask(Question::Ray(cell(0, 1, 0), back)),
        ),
        ("at 3 get 0 0 7", ask_of(3, Question::Get(cell(0, 0, 7)))),
        ("at 0 count 1 2 3 4 5 6", ask_of(0, Question::Count(part))),
        ("at 999999999 bounds", ask_of(999_999_999, Question::Bounds)),
        (
            "at 07 ray 0 1 0 1 -1 0",
            ask_of(7, Question::Ray(cell(0, 1, 0), way)),
        ),
        (
            "at 65536 faces 1 2 3 4 5 6",
            ask_of(65536, Question::Faces(part)),
        ),
        ("forget 999999999", Command::Forget(999_999_999)),
        ("same 0 00000002", Command::Same(0, 2)),
        ("head", Command::Head),
    ]
}

fn tint_questions() -> [(&'static str, Command); 2] {
    [
        ("colour 0 0 0", ask(Question::Colour(ORIGIN))),
        ("at 0 colour 0 0 0", ask_of(0, Question::Colour(ORIGIN))),
    ]
}

#[test]
fn every_change_is_read(rt: HostRuntime) -> Result<(), Fail> {
    let side = Side::new(4096).ok_or("a side")?;
    let models = read_models(rt.alloc(), &ONE)?;
    for (rows, once, tint) in [
        (CHANGES, false, false),
        (ATTEMPTS, true, false),
        (TINTED, false, true),
        (TINTED_ATTEMPTS, true, true),
    ] {
        for &(text, act) in rows {
            let script = read_script(rt.alloc(), text.as_bytes(), side, &models, tint)?;
            let command = Command::Edit { act, once };
            assert!(rt; is_only(&script.lines, command), "at {text}");
        }
    }
    Ok(())
}

#[test]
fn every_question_is_read(rt: HostRuntime) -> Result<(), Fail> {
    let side = Side::new(4096).ok_or("a side")?;
    let models = read_models(rt.alloc(), &ONE)?;
    let way = Way::new(1, -1, 0).ok_or("a way")?;
    let back = Way::new(-1024, 1024, 0).ok_or("a way")?;
    for tint in [false, true] {
        for (text, command) in questions(way, back) {
            let script = read_script(rt.alloc(), text.as_bytes(), side, &models, tint)?;
            assert!(rt; is_only(&script.lines, command), "at {text}");
        }
    }
    Ok(())
}

#[test]
fn the_tint_of_a_cell_is_asked_for(rt: HostRuntime) -> Result<(), Fail> {
    let side = Side::new(8).ok_or("a side")?;
    let models = read_models(rt.alloc(), &ONE)?;
    for (text, command) in tint_questions() {
        let script = read_script(rt.alloc(), text.as_bytes(), side, &models, true)?;
        assert!(rt; is_only(&script.lines, command), "at {text}");
    }
    Ok(())
}

// The numbers of the lines that have a command, one digit each.
fn lines_of(lines: &[ScriptLine]) -> u64 {
    let mut all: u64 = 0;
    for line in lines {
        all = all.wrapping_mul(10).wrapping_add(u64::from(line.line));
    }
    all
}

#[test]
fn comments_and_empty_lines_are_no_commands(rt: HostRuntime) -> Result<(), Fail> {
    let side = Side::new(8).ok_or("a side")?;
    let models = read_models(rt.alloc(), &ONE)?;
    for &(text, lines) in &[
        ("", 0),
        ("\n\n", 0),
        (" \t\r\n#", 0),
        ("# head\nhead\n", 2),
        ("head\n\n \t\n  #head\n#\nhead\nhead", 167),
        ("head\r\n\r\nhead\r", 13),
    ] {
        let script = read_script(rt.alloc(), text.as_bytes(), side, &models, false)?;
        assert_eq!(rt; lines_of(&script.lines), lines, "at {text}");
    }
    Ok(())
}

#[test]
fn numbers_have_one_to_nine_digits(rt: HostRuntime) {
    for &(word, value) in &[
        ("0", Some(0)),
        ("000000007", Some(7)),
        ("999999999", Some(999_999_999)),
        ("", None),
        ("0000000007", None),
        ("1000000000", None),
        ("+1", None),
        ("-1", None),
        ("1a", None),
    ] {
        assert!(rt; number(word.as_bytes()).ok() == value, "at {word}");
    }
}
