use history_model::{Act, History, Mark, Record};
use node_words::Name;
use report::report_text;
use std::alloc::Global;
use std::test::Fail;
use vw_cell::Side;
use world_core::{Closed, Root};

fn undo(line: u32) -> Record {
    Record {
        session: 0,
        line,
        act: Act::Undo,
    }
}

// Four changes, and the version of none forgotten.
fn forgetful(alloc: Global) -> Result<History, Fail> {
    let side = Side::new(8).ok_or("a side")?;
    let records = Vec::from_slice(alloc, &[undo(1), undo(2), undo(3), undo(4)])?;
    let mark = Mark {
        version: 0,
        at: 4,
        session: 0,
        line: 5,
    };
    let marks = Vec::from_slice(alloc, &[mark])?;
    Ok(History {
        side,
        coloured: false,
        records,
        marks,
    })
}

fn root(version: u32, bucket: u16, slot: u8) -> Root {
    let level = 1;
    Root {
        version,
        name: Some(Name {
            level,
            bucket,
            slot,
        }),
    }
}

// What is left of it: two versions of one root, one of another, and one with no set cell.
fn left(alloc: Global) -> Result<Closed, Fail> {
    let history = forgetful(alloc)?;
    let none = Root {
        version: 2,
        name: None,
    };
    let all = [root(1, 1, 0), none, root(3, 1, 0), root(4, 0, 1)];
    let roots = Vec::from_slice(alloc, &all)?;
    let live = [2, 3, 0, 0, 0, 0, 0, 0, 0, 0, 0];
    Ok(Closed {
        history,
        roots,
        live,
    })
}

#[test]
fn kept_versions_are_told_by_their_first_likes(rt: HostRuntime) -> Result<(), Fail> {
    let closed = left(rt.alloc())?;
    let text = report_text(rt.alloc(), &closed)?;
    let lines = b"voxdag report 1\nside 8\nrecords 4\nmarks 1\nversion 1 root 1\nversion 2 empty\n\
version 3 root 1\nversion 4 root 4\nlevel 0 nodes 2\nlevel 1 nodes 3\n";
    assert_eq!(rt; text.as_slice(), lines.as_slice());
    Ok(())
}
