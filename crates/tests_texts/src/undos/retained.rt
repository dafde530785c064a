ghost use Rattle.retain.specs.Retained.{AreRising};

use history_model::{Act, Mark, Record};
use retain::{all_marks, falls_out};
use std::alloc::{AllocError, Global};
use std::test::Fail;
use vw_cell::{Boxed, Cell};

// Two fills, an undo, and a redo on line 5, of session 0.
fn four_records(alloc: Global) -> Result<Vec<Record>, AllocError> {
    let at = Cell { x: 0, y: 0, z: 0 };
    let size = Cell { x: 1, y: 1, z: 1 };
    let fill = Act::Fill(Boxed { at, size });
    let mut records = Vec::new(alloc);
    for (line, act) in [(1, fill), (2, fill), (3, Act::Undo), (5, Act::Redo)] {
        records.push(Record {
            session: 0,
            line,
            act,
        })?;
    }
    Ok(records)
}

fn mark(version: u32, at: u32, session: u16, line: u32) -> Mark {
    Mark {
        version,
        at,
        session,
        line,
    }
}

#[test]
fn a_version_falls_out_behind_the_last(rt: HostRuntime) -> Result<(), Fail> {
    for (n, keep, version) in [
        (0, 2, None),
        (1, 2, None),
        (2, 2, Some(0)),
        (4, 2, Some(2)),
        (1, 1, Some(0)),
        (4, 0, None),
    ] {
        assert!(rt; falls_out(n, keep) == version, "{n} {keep}");
    }
    Ok(())
}

// Whether these are all marks of the four records.
fn are_all_marks(alloc: Global, forgot: &[Mark], keep: u32, wanted: &[Mark]) -> Result<bool, Fail>
    requires { AreRising forgot.now }
{
    let records = four_records(alloc)?;
    if records.len() > 8 {
        return Ok(false);
    }
    let marks = all_marks(alloc, &records, forgot, keep).map_err(|_| "out of memory")?;
    Ok(marks.as_slice() == wanted)
}

#[test]
fn each_version_that_fell_out_has_a_mark(rt: HostRuntime) -> Result<(), Fail> {
    let fallen = [mark(0, 2, 0, 2), mark(1, 3, 0, 3), mark(2, 4, 0, 5)];
    assert!(rt; are_all_marks(rt.alloc(), &[], 2, &fallen)?);
    let by_hand = [mark(1, 2, 3, 9)];
    let joined = [mark(0, 2, 0, 2), mark(1, 2, 3, 9), mark(2, 4, 0, 5)];
    assert!(rt; are_all_marks(rt.alloc(), &by_hand, 2, &joined)?);
    assert!(rt; are_all_marks(rt.alloc(), &by_hand, 0, &by_hand)?);
    Ok(())
}
