use crate::acts::{ONE, ball, boxed, cell};
use history_model::{
    Act, Spelled, Three, TintAct, Way, may_make, read_act, read_box, three_numbers,
};
use plain_text::{ExactWords, WordFault, take_three, take_word};
use std::test::Fail;
use vox_read::read_models;
use vw_cell::{Boxed, Cell, Side};

#[test]
fn acts_fit_where_they_lie_in_the_world(rt: HostRuntime) -> Result<(), Fail> {
    let side = Side::new(8).ok_or("a side")?;
    let models = read_models(rt.alloc(), &ONE)?;
    let part = boxed(cell(4, 0, 0), cell(4, 1, 1));
    let long = boxed(cell(4, 0, 0), cell(5, 1, 1));
    for (act, fits) in [
        (Act::Fill(part), true),
        (Act::Fill(long), false),
        (Act::Erase(boxed(cell(4, 0, 0), cell(4, 0, 1))), false),
        (Act::Ball(ball(cell(7, 7, 7), 4095)), true),
        (Act::Carve(ball(cell(0, 0, 8), 0)), false),
        (Act::Copy(part, cell(0, 7, 7)), true),
        (Act::Copy(part, cell(5, 0, 0)), false),
        (Act::Stamp(0, cell(7, 7, 7)), true),
        (Act::Stamp(0, cell(8, 0, 0)), false),
        (Act::Stamp(1, cell(0, 0, 0)), false),
        (Act::Undo, true),
        (Act::Redo, true),
    ] {
        assert!(rt; act.fits(side, &models) == fits, "{act}");
    }
    Ok(())
}

// A world of three cells in a row is copied one to the right: the first, the second and the fourth
// are set.
#[test]
fn a_copy_makes_what_it_may(rt: HostRuntime) -> Result<(), Fail> {
    let side = Side::new(8).ok_or("a side")?;
    let models = read_models(rt.alloc(), &ONE)?;
    let part = Boxed::new(cell(0, 0, 0), cell(4, 1, 1), side).ok_or("a box")?;
    let _there = Boxed::new(cell(1, 0, 0), cell(4, 1, 1), side).ok_or("a box")?;
    let act = Act::Copy(part, cell(1, 0, 0));
    assert!(rt; act.fits(side, &models));
    let before = |c: Cell| c.y == 0 && c.z == 0 && (c.x == 0 || c.x == 2);
    let after = |c: Cell| c.y == 0 && c.z == 0 && (c.x == 0 || c.x == 1 || c.x == 3);
    assert!(rt; may_make(side, &models, &act, &before, &after));
    assert!(rt; !may_make(side, &models, &act, &before, &before));
    Ok(())
}

// A tinted act lies in the world of a quarter of the store's side, and has a tint.
#[test]
fn tinted_acts_fit_a_quarter(rt: HostRuntime) -> Result<(), Fail> {
    let side = Side::new(32).ok_or("a side")?;
    let models = read_models(rt.alloc(), &ONE)?;
    let part = boxed(cell(4, 0, 0), cell(4, 1, 1));
    let long = boxed(cell(4, 0, 0), cell(5, 1, 1));
    for (act, fits) in [
        (TintAct::Fill(part, 255), true),
        (TintAct::Fill(part, 0), false),
        (TintAct::Fill(long, 1), false),
        (TintAct::Erase(long), false),
        (TintAct::Ball(ball(cell(7, 7, 7), 4095), 1), true),
        (TintAct::Ball(ball(cell(7, 7, 7), 4095), 0), false),
        (TintAct::Carve(ball(cell(0, 0, 8), 0)), false),
        (TintAct::Copy(part, cell(5, 0, 0)), false),
        (TintAct::Stamp(0, cell(7, 7, 7)), true),
        (TintAct::Stamp(0, cell(8, 0, 0)), false),
    ] {
        assert!(rt; Act::Tint(act).fits(side, &models) == fits, "{act}");
    }
    Ok(())
}

// Tint 5 of the cell at the origin stands in a store of side 16 in the world's cube, and in those
// of bits 0 and 2, whose corners are (8, 0, 0) and (8, 4, 0).
#[test]
fn a_tinted_fill_makes_what_it_may(rt: HostRuntime) -> Result<(), Fail> {
    let side = Side::new(16).ok_or("a side")?;
    let models = read_models(rt.alloc(), &ONE)?;
    let world = Side::new(4).ok_or("a side")?;
    let part = Boxed::new(cell(0, 0, 0), cell(1, 1, 1), world).ok_or("a box")?;
    let act = Act::Tint(TintAct::Fill(part, 5));
    assert!(rt; act.fits(side, &models));
    let before = |_: Cell| false;
    let after = |c: Cell| c.z == 0 && (c.x == 8 && (c.y == 0 || c.y == 4) || c.x == 0 && c.y == 0);
    assert!(rt; may_make(side, &models, &act, &before, &after));
    assert!(rt; !may_make(side, &models, &act, &before, &before));
    Ok(())
}

#[test]
fn ways_have_short_steps(rt: HostRuntime) {
    for &(dx, dy, dz, is_way) in &[
        (1, -1, 0, true),
        (-1024, 1024, 1024, true),
        (0, 0, 1, true),
        (0, 0, 0, false),
        (1025, 0, 0, false),
        (1, -1025, 0, false),
        (0, 0, 32767, false),
    ] {
        match Way::new(dx, dy, dz) {
            Some(way) => assert!(rt;
                is_way && way.dx() == dx && way.dy() == dy && way.dz() == dz,
                "{dx}"
            ),
            None => assert!(rt; !is_way, "{dx} {dy} {dz}"),
        }
    }
}

fn is_three(t: Three, x: u32, y: u32, z: u32) -> bool {
    t.x == x && t.y == y && t.z == z
}

// The act of a line whose first word is its name.
fn read_line(line: &[u8]) -> Result<Spelled, WordFault> {
    let mut words = ExactWords::new(line);
    let name = take_word(&mut words)?;
    read_act(name, &mut words)
}

// The numbers of a ball or a stamp, in the order of their words.
fn four_numbers(said: &Spelled) -> Option<[u32; 4]> {
    match *said {
        Spelled::Ball(at, radius) => Some([at.x, at.y, at.z, radius]),
        Spelled::Stamp(model, at) => Some([model, at.x, at.y, at.z]),
        _ => None,
    }
}

// The same of a copy.
fn nine_numbers(said: &Spelled) -> Option<[u32; 9]> {
    match *said {
        Spelled::Copy(at, size, to) => Some([
            at.x, at.y, at.z, size.x, size.y, size.z, to.x, to.y, to.z,
        ]),
        _ => None,
    }
}

#[test]
fn acts_are_spelled_with_any_numbers(rt: HostRuntime) -> Result<(), Fail> {
    let ball = read_line(b"ball 1 2 3 70000").map_err(|_| "a fault")?;
    assert!(rt; four_numbers(&ball) == Some([1, 2, 3, 70000]));
    let stamp = read_line(b"stamp 1024 1 2 3").map_err(|_| "a fault")?;
    assert!(rt; four_numbers(&stamp) == Some([1024, 1, 2, 3]));
    let copy = read_line(b"copy 9 0 0 4 1 4294967295 to 1 70000 0").map_err(|_| "a fault")?;
    assert!(rt; nine_numbers(&copy) == Some([9, 0, 0, 4, 1, 4294967295, 1, 70000, 0]));
    assert!(rt; read_line(b"redo").is_ok());
    Ok(())
}

#[test]
fn words_of_no_act_have_their_first_fault(rt: HostRuntime) {
    for &(line, fault) in &[
        ("jump", WordFault::Word),
        ("", WordFault::Word),
        ("fill 0 0 0 1 x", WordFault::Missing),
        ("undo ", WordFault::Extra),
        ("fill 0 0 0 x 1 1 1", WordFault::Extra),
        ("copy x 0 0 1 1 1 at 0 0 0", WordFault::Word),
        ("fill 0 0 0 1 1 01", WordFault::Number),
        ("erase 0 0 0 1 1 4294967296", WordFault::Number),
    ] {
        assert!(rt;
            read_line(line.as_bytes()).err() == Some(fault),
            "{fault:?}"
        );
    }
}

fn box_of(line: &[u8]) -> Result<(Three, Three), WordFault> {
    read_box(&mut ExactWords::new(line))
}

fn numbers_of(line: &[u8]) -> Result<Three, WordFault> {
    let words = take_three(&mut ExactWords::new(line))?;
    three_numbers::<ExactWords>(&words)
}

#[test]
fn boxes_and_places_are_spelled(rt: HostRuntime) {
    let part = box_of(b"1 2 3 4 5 6");
    assert!(rt; matches!(part, Ok((at, size)) if is_three(at, 1, 2, 3) && is_three(size, 4, 5, 6)));
    assert!(rt; box_of(b"1 2 3 4 5").err() == Some(WordFault::Missing));
    let place = numbers_of(b"0 10 4294967295 7");
    assert!(rt; matches!(place, Ok(at) if is_three(at, 0, 10, 4294967295)));
    assert!(rt; numbers_of(b"0 10 -1").err() == Some(WordFault::Number));
}
