use crate::acts::ONE;
use script::{ScriptFault, ScriptKind, read_script};
use std::alloc::{AllocError, Global};
use std::test::Fail;
use vox_read::read_models;
use vw_cell::Side;

// Lines with a fault, for a world of side 8 and one model of one cell. Each has the fault that
// comes first, of those that it has.
const WORDS: &[(&str, ScriptKind)] = &[
    ("# \x7f", ScriptKind::NotAscii),
    ("head \x1f", ScriptKind::NotAscii),
    ("jump \u{e9}", ScriptKind::NotAscii),
    ("head\r\r\n", ScriptKind::NotAscii),
    ("he\rad", ScriptKind::NotAscii),
    ("jump", ScriptKind::Word),
    ("Fill 0 0 0 1 1 1", ScriptKind::Word),
    ("fills 0 0 0 1 1 1", ScriptKind::Word),
    ("7", ScriptKind::Word),
    ("at 0 save", ScriptKind::Missing),
    ("save a.vox 0 0 0 1 1", ScriptKind::Missing),
    ("save a.vox 0 0 0 1 1 1 1", ScriptKind::Extra),
    ("try undo", ScriptKind::Word),
    ("try count 0 0 0 1 1 1", ScriptKind::Word),
    ("try try fill 0 0 0 1 1 1", ScriptKind::Word),
    ("try", ScriptKind::Missing),
    ("try fill 0 0 0 1 1", ScriptKind::Missing),
    ("try ball 0 0 0 1 1", ScriptKind::Extra),
    ("at 0 undo", ScriptKind::Word),
    ("at 0 head", ScriptKind::Word),
    ("at 0 at 0 bounds", ScriptKind::Word),
    ("at x jump", ScriptKind::Word),
    ("at", ScriptKind::Missing),
    ("at 0", ScriptKind::Missing),
    ("at x", ScriptKind::Missing),
    ("fill 0 0 0 1 1", ScriptKind::Missing),
    ("fill", ScriptKind::Missing),
    ("erase x 0 0 1 1", ScriptKind::Missing),
    ("ball 0 0 0", ScriptKind::Missing),
    ("carve 0 0", ScriptKind::Missing),
    ("copy 0 0 0 1 1 1 at 0 0", ScriptKind::Missing),
    ("stamp 0 0 0", ScriptKind::Missing),
    ("get 0 0", ScriptKind::Missing),
    ("count 0 0 0 1 1", ScriptKind::Missing),
    ("at 0 faces 0 0 0 1 1", ScriptKind::Missing),
    ("ray 0 0 0 1 1", ScriptKind::Missing),
    ("forget", ScriptKind::Missing),
    ("same 1", ScriptKind::Missing),
    ("fill x 0 0 1 1 1 1", ScriptKind::Extra),
    ("ball 0 0 0 1 1", ScriptKind::Extra),
    ("copy 0 0 0 1 1 1 at 0 0 0 0", ScriptKind::Extra),
    ("undo 1", ScriptKind::Extra),
    ("redo redo", ScriptKind::Extra),
    ("bounds #", ScriptKind::Extra),
    ("head 0", ScriptKind::Extra),
    ("same 1 2 x", ScriptKind::Extra),
    ("forget x 2", ScriptKind::Extra),
    ("at x bounds 1", ScriptKind::Extra),
    ("fill 0 0 0 1 1 1 5", ScriptKind::Extra),
    ("ball 0 0 0 1 7", ScriptKind::Extra),
    ("colour 0 0 0", ScriptKind::Word),
    ("at 0 colour 0 0 0", ScriptKind::Word),
];

const NUMBERS: &[(&str, ScriptKind)] = &[
    ("copy x 0 0 1 1 1 at 0 0 0", ScriptKind::Word),
    ("copy 0 0 0 1 1 1 TO 0 0 0", ScriptKind::Word),
    ("copy 0 0 0 1 1 x to 0 0 0", ScriptKind::Number),
    ("fill 0 0 0 1 1 1000000000", ScriptKind::Number),
    ("fill 0 0 0 9 1 x", ScriptKind::Number),
    ("fill 0 0 0 1 1 +1", ScriptKind::Number),
    ("erase -0 0 0 1 1 1", ScriptKind::Number),
    ("ball 0 0 0 1.5", ScriptKind::Number),
    ("stamp 9 0 0 x", ScriptKind::Number),
    ("get 0 0 0x1", ScriptKind::Number),
    ("ray -1 0 0 1 1 1", ScriptKind::Number),
    ("ray 0 0 0 --1 1 1", ScriptKind::Number),
    ("ray 0 0 0 1 - 1", ScriptKind::Number),
    ("ray 0 0 0 1 1 -1000000000", ScriptKind::Number),
    ("forget -1", ScriptKind::Number),
    ("same 0 one", ScriptKind::Number),
    ("at x bounds", ScriptKind::Number),
    ("at -1 get 0 0 0", ScriptKind::Number),
    ("stamp 1 0 0 0", ScriptKind::NoModel),
    ("stamp 1 9 9 9", ScriptKind::NoModel),
    ("try stamp 1 0 0 0", ScriptKind::NoModel),
    ("try fill 0 0 0 0 1 1", ScriptKind::Range),
    ("stamp 65536 0 0 0", ScriptKind::NoModel),
    ("stamp 0 8 0 0", ScriptKind::Range),
    ("fill 0 0 0 0 1 1", ScriptKind::Range),
    ("fill 0 0 0 9 1 1", ScriptKind::Range),
    ("erase 8 0 0 1 1 1", ScriptKind::Range),
    ("fill 65536 0 0 1 1 1", ScriptKind::Range),
    ("fill 0 0 0 1 65537 1", ScriptKind::Range),
    ("ball 0 8 0 1", ScriptKind::Range),
    ("carve 0 0 0 4096", ScriptKind::Range),
    ("copy 0 0 0 4 1 1 to 5 0 0", ScriptKind::Range),
    ("copy 5 0 0 4 1 1 to 0 0 0", ScriptKind::Range),
    ("get 0 0 8", ScriptKind::Range),
    ("count 0 0 0 1 1 0", ScriptKind::Range),
    ("faces 7 7 7 1 1 2", ScriptKind::Range),
    ("ray 8 0 0 1 0 0", ScriptKind::Range),
    ("ray 0 0 0 0 0 0", ScriptKind::Range),
    ("ray 0 0 0 1025 0 0", ScriptKind::Range),
    ("at x ray 0 0 0 0 0 -1025", ScriptKind::Number),
    ("save a_-.9 0 0 0 1 1 x", ScriptKind::Number),
    ("save a 0 0 0 9 1 1", ScriptKind::Range),
    ("save .a 0 0 0 1 1 1", ScriptKind::Range),
    ("save -a 0 0 0 1 1 1", ScriptKind::Range),
    ("save a/b 0 0 0 1 1 1", ScriptKind::Range),
    (
        "save aaaaaaaaaaaaaaaaaaaaaaaaaaaaaaaaaaaaaaaaaaaaaaaaaaaaaaaaaaaaaaaaa 0 0 0 1 1 1",
        ScriptKind::Range,
    ),
];

// The same for a world whose cells have tints.
const TINTED: &[(&str, ScriptKind)] = &[
    ("fill 0 0 0 1 1", ScriptKind::Missing),
    ("ball 0 0 0", ScriptKind::Missing),
    ("colour 0 0", ScriptKind::Missing),
    ("at 0 colour", ScriptKind::Missing),
    ("fill x 0 0 1 1 1 5 5", ScriptKind::Extra),
    ("ball 0 0 0 1 7 7", ScriptKind::Extra),
    ("erase 0 0 0 1 1 1 5", ScriptKind::Extra),
    ("carve 0 0 0 1 7", ScriptKind::Extra),
    ("copy 0 0 0 1 1 1 to 0 0 0 5", ScriptKind::Extra),
    ("stamp 0 0 0 0 5", ScriptKind::Extra),
    ("colour x 0 0 0", ScriptKind::Extra),
    ("try colour 0 0 0", ScriptKind::Word),
    ("fill 0 0 0 9 1 1 red", ScriptKind::Number),
    ("fill 0 0 0 1 1 x 0", ScriptKind::Number),
    ("ball 0 0 0 1 -1", ScriptKind::Number),
    ("colour 0 0 red", ScriptKind::Number),
    ("stamp 1 0 0 0", ScriptKind::NoModel),
    ("stamp 0 8 0 0", ScriptKind::Range),
    ("fill 0 0 0 9 1 1 5", ScriptKind::Range),
    ("fill 0 0 0 1 1 1 0", ScriptKind::Range),
    ("fill 0 0 0 1 1 1 256", ScriptKind::Range),
    ("try fill 0 0 0 1 1 1 999999999", ScriptKind::Range),
    ("ball 0 8 0 1 7", ScriptKind::Range),
    ("ball 0 0 0 1 0", ScriptKind::Range),
    ("ball 0 0 0 1 256", ScriptKind::Range),
    ("copy 0 0 0 4 1 1 to 5 0 0", ScriptKind::Range),
    ("colour 8 0 0", ScriptKind::Range),
    ("at 0 colour 0 0 8", ScriptKind::Range),
    ("save a 0 0 0 9 1 1", ScriptKind::Range),
];

fn fault(line: u32, kind: ScriptKind) -> Option<ScriptFault> {
    Some(ScriptFault { line, kind })
}

#[test]
fn each_line_has_its_first_fault(rt: HostRuntime) -> Result<(), Fail> {
    let side = Side::new(8).ok_or("a side")?;
    let models = read_models(rt.alloc(), &ONE)?;
    for (rows, tint) in [(WORDS, false), (NUMBERS, false), (TINTED, true)] {
        for &(text, kind) in rows {
            let read = read_script(rt.alloc(), text.as_bytes(), side, &models, tint);
            assert!(rt; read.err() == fault(1, kind), "at {text}");
        }
    }
    Ok(())
}

#[test]
fn the_first_line_with_a_fault_decides(rt: HostRuntime) -> Result<(), Fail> {
    let side = Side::new(8).ok_or("a side")?;
    let models = read_models(rt.alloc(), &ONE)?;
    for &(text, tint, line, kind) in &[
        (
            "head\n\nfill 0 0 0 0 1 1\njump\n",
            false,
            3,
            ScriptKind::Range,
        ),
        ("undo\r\n# \x01\njump", false, 2, ScriptKind::NotAscii),
        ("head\nhead\nhead 1", false, 3, ScriptKind::Extra),
        (
            "fill 0 0 0 1 1 1 255\nfill 0 0 0 1 1 1 256\njump",
            true,
            2,
            ScriptKind::Range,
        ),
    ] {
        let read = read_script(rt.alloc(), text.as_bytes(), side, &models, tint);
        assert!(rt; read.err() == fault(line, kind), "at {text}");
    }
    Ok(())
}

// So many empty lines, and then this.
fn after_lines(alloc: Global, empty: u32, last: &str) -> Result<Vec<u8>, AllocError> {
    let mut text = Vec::new(alloc);
    for _ in 0..empty {
        text.push(b'\n')?;
    }
    text.extend_from_slice(last.as_bytes())?;
    Ok(text)
}

#[test]
fn a_script_has_at_most_100000_lines(rt: HostRuntime) -> Result<(), Fail> {
    let side = Side::new(8).ok_or("a side")?;
    let models = read_models(rt.alloc(), &ONE)?;
    for (empty, last, want) in [
        (99_999, "head\n", None),
        (100_000, "", None),
        (99_999, "jump", fault(100_000, ScriptKind::Word)),
        (100_000, "# \x7f", fault(100_001, ScriptKind::TooManyLines)),
    ] {
        let text = after_lines(rt.alloc(), empty, last)?;
        let read = read_script(rt.alloc(), &text, side, &models, false);
        assert!(rt; read.err() == want, "{empty} lines and {last}");
    }
    Ok(())
}

#[test]
fn kinds_have_their_numbers(rt: HostRuntime) {
    for &(kind, number) in &[
        (ScriptKind::Word, 1),
        (ScriptKind::Number, 2),
        (ScriptKind::Range, 3),
        (ScriptKind::Missing, 4),
        (ScriptKind::Extra, 5),
        (ScriptKind::NoModel, 6),
        (ScriptKind::TooManyLines, 7),
        (ScriptKind::TooManySaves, 8),
        (ScriptKind::NotAscii, 9),
        (ScriptKind::Memory, 10),
    ] {
        assert!(rt; kind.number() == number, "{kind}");
    }
}

#[test]
fn saved_boxes_have_at_most_256_cells_a_side(rt: HostRuntime) -> Result<(), Fail> {
    let side = Side::new(512).ok_or("a side")?;
    let models = read_models(rt.alloc(), &ONE)?;
    for &(text, want) in &[
        ("save a 0 0 0 256 256 256", None),
        ("save a 0 0 0 257 1 1", Some(ScriptKind::Range)),
        ("save a 0 0 0 1 257 1", Some(ScriptKind::Range)),
        ("save a 0 0 0 1 1 257", Some(ScriptKind::Range)),
    ] {
        let read = read_script(rt.alloc(), text.as_bytes(), side, &models, false);
        let kind = read.err().map(|fault| fault.kind);
        assert!(rt; kind == want, "at {text}");
    }
    Ok(())
}
