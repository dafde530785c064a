use history_model::Act;
use std::test::Fail;
use undo::Trail;
use vw_cell::Cell;

#[test]
fn undos_and_redos_go_where_the_acts_say(rt: HostRuntime) -> Result<(), Fail> {
    let edit = Act::Stamp(0, Cell { x: 0, y: 0, z: 0 });
    let mut trail = Trail::begin(rt.alloc(), 8).map_err(|_| "out of memory")?;
    assert_eq!(rt; trail.undo_target(), None);
    assert_eq!(rt; trail.redo_target(), None);
    // Versions 1 and 2 are edits, 3 and 4 go back, 5 goes on, and 6 is an edit again.
    for (number, act, undo, redo) in [
        (1, edit, Some(0), None),
        (2, edit, Some(1), None),
        (3, Act::Undo, Some(0), Some(2)),
        (4, Act::Undo, None, Some(1)),
        (5, Act::Redo, Some(0), Some(2)),
        (6, edit, Some(1), None),
    ] {
        trail.reserve().map_err(|_| "out of memory")?;
        trail.take(number, act);
        assert_eq!(rt; trail.undo_target(), undo);
        assert_eq!(rt; trail.redo_target(), redo);
    }
    Ok(())
}
