//! What the shelf over real files counts. The test removes what it made.
use crate::{FileShelf, ReadRefused, Shelf, WriteRefused};
use std::fs;
use std::test::Fail;

/// Names at which a write fails, and how many calls have failed then.
const FAILING: &[(&str, u64)] = &[("folder", 2), ("no/file", 3), ("/dev/full", 4)];

#[test]
fn system_errors_are_faults(rt: HostRuntime) -> Result<(), Fail> {
    let mut shelf = FileShelf::new(&rt);
    let mut into = Vec::new(rt.alloc());
    fs::create_dir(&rt, "folder")?;
    assert_eq!(rt; shelf.read("no", 9, &mut into), Err(ReadRefused::Missing));
    assert_eq!(rt;
        shelf.read("no/no", 9, &mut into),
        Err(ReadRefused::Missing)
    );
    assert_eq!(rt; shelf.faults(), 0);
    assert_eq!(rt;
        shelf.read("folder", 9, &mut into),
        Err(ReadRefused::Failed)
    );
    assert_eq!(rt; shelf.faults(), 1);
    assert_eq!(rt; shelf.write("whole", b"bytes"), Ok(()));
    assert_eq!(rt; shelf.faults(), 1);
    fs::remove_file(&rt, "whole")?;
    for &(name, faults) in FAILING {
        let answer = shelf.write(name, b"bytes");
        assert_eq!(rt; answer, Err(WriteRefused::Failed), "at {name}");
        assert_eq!(rt; shelf.faults(), faults, "at {name}");
    }
    fs::remove_dir(&rt, "folder")?;
    Ok(())
}
