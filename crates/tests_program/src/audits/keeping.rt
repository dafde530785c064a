//! Runs that hold their last versions alone.

use crate::audits::texts::{Texts, are_audited, changed, is_audited_keeping};
use std::alloc::Global;
use std::test::Fail;

// Of two versions that are held, an undo goes back to the older one, and to none behind it.
const KEPT: Texts<'static> = Texts {
    journal: "voxdag journal 1\nside 8\n1 0 1 fill 0 0 0 1 1 1\n2 0 2 fill 1 0 0 1 1 1\n\
              3 0 3 undo\n4 0 5 redo\nmark 0 2 0 2\nmark 1 3 0 3\nmark 2 4 0 5\nend\n",
    script: "fill 0 0 0 1 1 1\nfill 1 0 0 1 1 1\nundo\nundo\nredo\nat 0 count 0 0 0 8 8 8\n\
             count 0 0 0 8 8 8\n",
    transcript: "1 @1 ok\n2 @2 ok\n3 @3 ok\n4 @3 forgotten 0\n5 @4 ok\n6 @4 forgotten 0\n\
                 7 @4 count 2\n",
};

// How many versions an audit is told to be held, and its answer.
const NUMBERS: &[(u32, bool)] = &[
    (0, false),
    (1, false),
    (2, true),
    (3, false),
    (4, false),
    (5, false),
    (65_535, false),
];

#[test]
fn a_run_of_two_versions_is_one_of_two(rt: HostRuntime) -> Result<(), Fail> {
    for &(keep, answer) in NUMBERS {
        assert!(rt;
            is_audited_keeping(rt.alloc(), KEPT, None, keep)? == answer,
            "at {}",
            keep
        );
    }
    Ok(())
}

// A version is forgotten before it falls out.
const FORGOTTEN: Texts<'static> = Texts {
    journal: "voxdag journal 1\nside 8\n1 0 1 fill 0 0 0 1 1 1\n2 0 2 fill 1 0 0 1 1 1\n\
              3 0 4 fill 2 0 0 1 1 1\nmark 0 2 0 2\nmark 1 2 0 3\nend\n",
    script: "fill 0 0 0 1 1 1\nfill 1 0 0 1 1 1\nforget 1\nfill 2 0 0 1 1 1\n",
    transcript: "1 @1 ok\n2 @2 ok\n3 @2 forgot 1\n4 @3 ok\n",
};

// A piece of the journal, what stands in its place, and the audit's answer.
type Change = (&'static str, &'static str, bool);

const KEPT_JOURNALS: &[Change] = &[
    ("mark 0 2 0 2\n", "", false),
    ("mark 0 2 0 2", "mark 0 1 0 2", false),
    ("mark 0 2 0 2", "mark 0 3 0 2", false),
    ("mark 1 3 0 3", "mark 1 3 1 3", false),
    ("mark 1 3 0 3", "mark 1 3 0 2", false),
    ("mark 2 4 0 5\n", "mark 2 4 0 5\nmark 3 4 0 5\n", false),
];

const FORGOTTEN_JOURNALS: &[Change] = &[
    ("mark 1 2 0 3", "mark 1 3 0 4", false),
    ("mark 1 2 0 3\n", "", false),
    ("mark 0 2 0 2\n", "", false),
];

fn journals_are(alloc: Global, texts: Texts<'_>, change: Change) -> Result<bool, Fail> {
    let (old, new, answer) = change;
    let journal = changed(alloc, texts.journal, old, new)?;
    let texts = Texts {
        journal: journal.as_str(),
        script: texts.script,
        transcript: texts.transcript,
    };
    Ok(is_audited_keeping(alloc, texts, None, 2)? == answer)
}

#[test]
fn changed_marks_of_fallen_versions_are_seen(rt: HostRuntime) -> Result<(), Fail> {
    for change in KEPT_JOURNALS {
        assert!(rt; journals_are(rt.alloc(), KEPT, *change)?, "at {}", change.1);
    }
    assert!(rt; is_audited_keeping(rt.alloc(), FORGOTTEN, None, 2)?);
    assert!(rt; !is_audited_keeping(rt.alloc(), FORGOTTEN, None, 0)?);
    for change in FORGOTTEN_JOURNALS {
        assert!(rt;
            journals_are(rt.alloc(), FORGOTTEN, *change)?,
            "at {}",
            change.1
        );
    }
    Ok(())
}

const FILLS: (&str, &str) = ("fill 0 0 0 1 1 1\nfill 1 0 0 1 1 1\n", "1 @1 ok\n2 @2 ok\n");

const FORGETS: &str = "forget 0\n";

// Of one version that is held, another session forgets the one before: as it falls out, by then, or
// too late. The journal, its transcript, and the audit's answer.
const MEETINGS: &[(&str, &str, bool)] = &[
    (
        "voxdag journal 1\nside 8\n1 0 1 fill 0 0 0 1 1 1\n2 0 2 fill 1 0 0 1 1 1\n\
         mark 0 1 0 1\nmark 1 2 0 2\nend\n",
        "1 @1 forgotten 0\n",
        true,
    ),
    (
        "voxdag journal 1\nside 8\n1 0 1 fill 0 0 0 1 1 1\n2 0 2 fill 1 0 0 1 1 1\n\
         mark 0 1 1 1\nmark 1 2 0 2\nend\n",
        "1 @1 forgot 0\n",
        true,
    ),
    (
        "voxdag journal 1\nside 8\n1 0 1 fill 0 0 0 1 1 1\n2 0 2 fill 1 0 0 1 1 1\n\
         mark 0 2 1 1\nmark 1 2 0 2\nend\n",
        "1 @2 forgot 0\n",
        false,
    ),
];

#[test]
fn a_version_is_forgotten_by_the_time_it_falls_out(rt: HostRuntime) -> Result<(), Fail> {
    for &(journal, second, answer) in MEETINGS {
        let found = are_audited(rt.alloc(), journal, FILLS, (FORGETS, second), 1)?;
        assert!(rt; found == answer, "at {}", second);
    }
    Ok(())
}
