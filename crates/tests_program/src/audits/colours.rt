//! A run whose cells have tints, with a piece of a text changed.

use crate::audits::texts::{Texts, changed, is_audited, is_run_of, journal_of};
use std::alloc::Global;
use std::test::Fail;

// A cell gets tint 5 and then tint 2, an undo gives it tint 5 again, and another cell gets the tint
// of a fill that names none.
const TINTED: Texts<'static> = Texts {
    journal: "voxdag journal 2\nside 8\n1 0 1 fill 0 0 0 1 1 1 5\n2 0 5 fill 0 0 0 1 1 1 2\n\
              3 0 11 undo\n4 0 13 fill 1 0 0 1 1 1 1\nend\n",
    script: "fill 0 0 0 1 1 1 5\ncolour 0 0 0\ncolour 1 0 0\ncount 0 0 0 8 8 8\n\
             fill 0 0 0 1 1 1 2\ncolour 0 0 0\nsave c.vox 0 0 0 1 1 1\nsame 1 2\n\
             at 1 colour 0 0 0\nbounds\nundo\nsame 1 3\nfill 1 0 0 1 1 1\ncolour 1 0 0\n",
    transcript: "1 @1 ok\n2 @1 colour 5\n3 @1 colour 0\n4 @1 count 1\n5 @2 ok\n\
                 6 @2 colour 2\n7 @2 saved 1\n8 @2 different\n9 @2 colour 5\n\
                 10 @2 bounds 0 0 0 1 1 1\n11 @3 ok\n12 @3 same\n13 @4 ok\n14 @4 colour 1\n",
};

// A piece of a text, what stands in its place, and the audit's answer.
type Change = (&'static str, &'static str, bool);

// The world's side stands in the journal alone, so a run of side 8 may be one of side 16.
const TINTED_JOURNALS: &[Change] = &[
    ("side 8", "side 16", true),
    ("1 1 1 5", "1 1 1 6", false),
    (
        "4 0 13 fill 1 0 0 1 1 1 1",
        "4 0 13 fill 1 0 0 1 1 1 2",
        false,
    ),
    (
        "4 0 13 fill 1 0 0 1 1 1 1",
        "4 0 13 erase 1 0 0 1 1 1",
        false,
    ),
    ("3 0 11 undo", "3 0 11 redo", false),
];

const TINTED_TRANSCRIPTS: &[Change] = &[
    ("2 @1 colour 5", "2 @1 colour 4", false),
    ("3 @1 colour 0", "3 @1 colour 1", false),
    ("2 @1 colour 5", "2 @1 set", false),
    ("2 @1", "2 @0", false),
    ("4 @1 count 1", "4 @2 count 1", false),
    ("5 @2 ok", "5 @1 ok", false),
    ("6 @2 colour 2", "6 @2 colour 5", false),
    ("saved 1", "saved 2", false),
    ("8 @2 different", "8 @2 same", false),
    ("9 @2 colour 5", "9 @2 colour 2", false),
    ("12 @3 same", "12 @3 different", false),
    ("14 @4 colour 1", "14 @4 colour 0", false),
];

fn journals_are(alloc: Global, change: Change) -> Result<bool, Fail> {
    let (old, new, answer) = change;
    let journal = changed(alloc, TINTED.journal, old, new)?;
    let texts = Texts {
        journal: journal.as_str(),
        script: TINTED.script,
        transcript: TINTED.transcript,
    };
    Ok(is_audited(alloc, texts, None)? == answer)
}

fn transcripts_are(alloc: Global, change: Change) -> Result<bool, Fail> {
    let (old, new, answer) = change;
    let transcript = changed(alloc, TINTED.transcript, old, new)?;
    let texts = Texts {
        journal: TINTED.journal,
        script: TINTED.script,
        transcript: transcript.as_str(),
    };
    Ok(is_audited(alloc, texts, None)? == answer)
}

#[test]
fn changed_tints_are_seen(rt: HostRuntime) -> Result<(), Fail> {
    assert!(rt; is_audited(rt.alloc(), TINTED, None)?);
    for change in TINTED_JOURNALS {
        assert!(rt; journals_are(rt.alloc(), *change)?, "at {}", change.1);
    }
    for change in TINTED_TRANSCRIPTS {
        assert!(rt; transcripts_are(rt.alloc(), *change)?, "at {}", change.1);
    }
    Ok(())
}

// The history of a journal, called coloured or not, beside a script and its transcript.
fn is_run_called(
    alloc: Global,
    coloured: bool,
    journal: &str,
    script: &str,
    transcript: &str,
) -> Result<bool, Fail> {
    let mut history = journal_of(alloc, journal)?;
    history.coloured = coloured;
    is_run_of(alloc, &history, script, transcript, None, 0)
}

const PLAIN: &str = "voxdag journal 1\nside 32\n1 0 1 fill 0 0 0 1 1 1\nend\n";

const COLOURED: &str = "voxdag journal 2\nside 8\n1 0 1 fill 0 0 0 1 1 1 1\nend\n";

// A journal, whether its history is called coloured, and the audit's answer: an act without a tint
// is none of a coloured history, and one with a tint none of a plain one.
const CALLED: &[(&str, bool, bool)] = &[
    (PLAIN, false, true),
    (PLAIN, true, false),
    (COLOURED, true, true),
    (COLOURED, false, false),
];

#[test]
fn acts_are_tinted_where_the_history_is_coloured(rt: HostRuntime) -> Result<(), Fail> {
    for &(journal, coloured, answer) in CALLED {
        let found = is_run_called(
            rt.alloc(),
            coloured,
            journal,
            "fill 0 0 0 1 1 1\n",
            "1 @1 ok\n",
        )?;
        assert!(rt; found == answer, "at {}", journal);
    }
    Ok(())
}
