//! Runs of two scripts at the same time.

use crate::audits::texts::are_audited;
use std::test::Fail;

// What two scripts come to: the journal, the transcript of each, and the audit's answer.
type Outcome = (&'static str, &'static str, &'static str, bool);

const UNDOES: &str = "fill 0 0 0 1 1 1\nundo\n";

const FORGETS: &str = "forget 0\n";

// The three ways in which a version can be forgotten while another session undoes to it, and two in
// which it can't: the undo became a record though the mark stood before, and the mark is nobody's.
const OUTCOMES: &[Outcome] = &[
    (
        "voxdag journal 1\nside 8\n1 0 1 fill 0 0 0 1 1 1\n2 0 2 undo\nend\n",
        "1 @1 ok\n2 @2 ok\n",
        "1 @0 is head\n",
        true,
    ),
    (
        "voxdag journal 1\nside 8\n1 0 1 fill 0 0 0 1 1 1\nmark 0 1 1 1\nend\n",
        "1 @1 ok\n2 @1 forgotten 0\n",
        "1 @1 forgot 0\n",
        true,
    ),
    (
        "voxdag journal 1\nside 8\n1 0 1 fill 0 0 0 1 1 1\n2 0 2 undo\nmark 0 2 1 1\nend\n",
        "1 @1 ok\n2 @2 ok\n",
        "1 @2 forgot 0\n",
        true,
    ),
    (
        "voxdag journal 1\nside 8\n1 0 1 fill 0 0 0 1 1 1\n2 0 2 undo\nmark 0 1 1 1\nend\n",
        "1 @1 ok\n2 @2 ok\n",
        "1 @1 forgot 0\n",
        false,
    ),
    (
        "voxdag journal 1\nside 8\n1 0 1 fill 0 0 0 1 1 1\n2 0 2 undo\nmark 0 2 1 1\nend\n",
        "1 @1 ok\n2 @2 ok\n",
        "1 @0 is head\n",
        false,
    ),
];

#[test]
fn a_version_is_forgotten_beside_an_undo(rt: HostRuntime) -> Result<(), Fail> {
    for &(journal, first, second, answer) in OUTCOMES {
        let found = are_audited(rt.alloc(), journal, (UNDOES, first), (FORGETS, second), 0)?;
        assert!(rt; found == answer, "at {}", second);
    }
    Ok(())
}

const MET: &str = "voxdag journal 1\nside 8\n1 0 1 fill 1 0 0 1 1 1\nend\n";

const EDITS: (&str, &str) = ("fill 1 0 0 1 1 1\n", "1 @1 ok\n");

// The second session's script and transcript beside one edit of the first, and the audit's answer.
const ATTEMPTS: &[(&str, &str, bool)] = &[
    ("try fill 0 0 0 1 1 1\n", "1 @1 stale 0\n", true),
    ("try fill 0 0 0 1 1 1\n", "1 @1 stale 1\n", false),
    ("try fill 0 0 0 1 1 1\n", "1 @0 stale 0\n", false),
    ("fill 0 0 0 1 1 1\n", "1 @1 stale 0\n", false),
    (
        "head\ntry fill 0 0 0 1 1 1\n",
        "1 @0 head\n2 @1 stale 0\n",
        true,
    ),
    (
        "head\ntry fill 0 0 0 1 1 1\n",
        "1 @1 head\n2 @1 stale 0\n",
        false,
    ),
    ("count 0 0 0 8 8 8\n", "1 @0 count 0\n", true),
    ("count 0 0 0 8 8 8\n", "1 @1 count 1\n", true),
    ("count 0 0 0 8 8 8\n", "1 @0 count 1\n", false),
];

#[test]
fn an_attempt_is_stale_beside_an_edit(rt: HostRuntime) -> Result<(), Fail> {
    for &(script, transcript, answer) in ATTEMPTS {
        let found = are_audited(rt.alloc(), MET, EDITS, (script, transcript), 0)?;
        assert!(rt; found == answer, "at {}", transcript);
    }
    Ok(())
}
