//! A run's texts with a piece of the journal or of the transcript changed.

use crate::audits::texts::{Texts, changed, is_audited};
use std::alloc::Global;
use std::test::Fail;

// Changes that are undone, and one that is not redone.
const UNDONE: Texts<'static> = Texts {
    journal: "voxdag journal 1\nside 8\n1 0 2 fill 0 0 0 1 1 1\n2 0 3 undo\n\
              3 0 4 fill 1 0 0 1 1 1\n4 0 6 undo\nend\n",
    script: "undo\nfill 0 0 0 1 1 1\nundo\nfill 1 0 0 1 1 1\nredo\nundo\ncount 0 0 0 4 1 1\n",
    transcript: "1 @0 nothing to undo\n2 @1 ok\n3 @2 ok\n4 @3 ok\n5 @3 nothing to redo\n6 @4 ok\n\
                 7 @4 count 0\n",
};

// A version that is forgotten.
const FORGOTTEN: Texts<'static> = Texts {
    journal: "voxdag journal 1\nside 8\n1 0 1 fill 0 0 0 1 1 1\n2 0 2 fill 1 0 0 1 1 1\n\
              mark 1 2 0 3\nend\n",
    script: "fill 0 0 0 1 1 1\nfill 1 0 0 1 1 1\nforget 1\nundo\nforget 2\nforget 9\n\
             at 1 get 0 0 0\nsame 0 2\n",
    transcript: "1 @1 ok\n2 @2 ok\n3 @2 forgot 1\n4 @2 forgotten 1\n5 @2 is head\n\
                 6 @2 no version 9\n7 @2 forgotten 1\n8 @2 different\n",
};

// Lines that may stand at more than one moment, but for their order.
const ORDERED: Texts<'static> = Texts {
    journal: "voxdag journal 1\nside 8\n1 0 1 fill 0 0 0 1 1 1\n2 0 3 fill 1 0 0 1 1 1\nend\n",
    script: "fill 0 0 0 1 1 1\nhead\nfill 1 0 0 1 1 1\nhead\n",
    transcript: "1 @1 ok\n2 @1 head\n3 @2 ok\n4 @2 head\n",
};

// Questions and saves.
const ASKED: Texts<'static> = Texts {
    journal: "voxdag journal 1\nside 8\n1 0 1 fill 1 1 0 1 1 1\nend\n",
    script: "fill 1 1 0 1 1 1\nget 1 1 0\nfaces 0 0 0 8 8 8\nbounds\nray 0 1 0 1 -1 0\n\
             save a.vox 0 0 0 2 2 1\nat 0 bounds\nsame 0 1\n",
    transcript: "1 @1 ok\n2 @1 set\n3 @1 faces 6\n4 @1 bounds 1 1 0 1 1 1\n5 @1 hit 1 1 0\n\
                 6 @1 saved 1\n7 @1 bounds none\n8 @1 different\n",
};

// A piece of the journal, what stands in its place, and the audit's answer.
type Change = (&'static str, &'static str, bool);

fn journals_are(alloc: Global, texts: Texts<'_>, change: Change) -> Result<bool, Fail> {
    let (old, new, answer) = change;
    let journal = changed(alloc, texts.journal, old, new)?;
    let texts = Texts {
        journal: journal.as_str(),
        script: texts.script,
        transcript: texts.transcript,
    };
    Ok(is_audited(alloc, texts, None)? == answer)
}

fn transcripts_are(alloc: Global, texts: Texts<'_>, change: Change) -> Result<bool, Fail> {
    let (old, new, answer) = change;
    let transcript = changed(alloc, texts.transcript, old, new)?;
    let texts = Texts {
        journal: texts.journal,
        script: texts.script,
        transcript: transcript.as_str(),
    };
    Ok(is_audited(alloc, texts, None)? == answer)
}

// The world's side stands in the journal alone, so a run of side 8 may be one of side 4.
const UNDONE_JOURNALS: &[Change] = &[
    ("side 8", "side 4", true),
    ("1 0 2 fill", "1 1 2 fill", false),
    ("1 0 2 fill", "1 0 1 fill", false),
    ("fill 0 0 0 1 1 1", "fill 0 0 0 1 1 2", false),
    ("2 0 3 undo", "2 0 3 redo", false),
    ("4 0 6 undo\n", "", false),
];

const UNDONE_TRANSCRIPTS: &[Change] = &[
    ("1 @0", "1 @1", false),
    ("2 @1 ok", "2 @2 ok", false),
    ("5 @3", "5 @2", false),
    ("5 @3", "5 @4", false),
    ("7 @4 count 0", "7 @4 count 1", false),
    ("7 @4", "8 @4", false),
    ("7 @4 count 0\n", "", false),
];

#[test]
fn changed_undos_are_seen(rt: HostRuntime) -> Result<(), Fail> {
    assert!(rt; is_audited(rt.alloc(), UNDONE, None)?);
    for change in UNDONE_JOURNALS {
        assert!(rt;
            journals_are(rt.alloc(), UNDONE, *change)?,
            "at {}",
            change.1
        );
    }
    for change in UNDONE_TRANSCRIPTS {
        assert!(rt;
            transcripts_are(rt.alloc(), UNDONE, *change)?,
            "at {}",
            change.1
        );
    }
    Ok(())
}

const FORGOTTEN_JOURNALS: &[Change] = &[
    ("mark 1 2 0 3", "mark 0 2 0 3", false),
    ("mark 1 2 0 3", "mark 1 2 1 3", false),
    ("mark 1 2 0 3", "mark 1 2 0 4", false),
    ("mark 1 2 0 3\n", "", false),
];

// Record 1 set the place, but version 1 was forgotten by then.
const FORGOTTEN_TRANSCRIPTS: &[Change] = &[
    ("3 @2 forgot 1", "3 @2 forgot 0", false),
    ("6 @2 no version 9", "6 @2 no version 8", false),
    ("7 @2 forgotten 1", "7 @2 set", false),
    ("8 @2 different", "8 @2 same", false),
];

#[test]
fn changed_marks_are_seen(rt: HostRuntime) -> Result<(), Fail> {
    assert!(rt; is_audited(rt.alloc(), FORGOTTEN, None)?);
    for change in FORGOTTEN_JOURNALS {
        assert!(rt;
            journals_are(rt.alloc(), FORGOTTEN, *change)?,
            "at {}",
            change.1
        );
    }
    for change in FORGOTTEN_TRANSCRIPTS {
        assert!(rt;
            transcripts_are(rt.alloc(), FORGOTTEN, *change)?,
            "at {}",
            change.1
        );
    }
    Ok(())
}

const ORDERED_TRANSCRIPTS: &[Change] = &[
    ("2 @1", "2 @0", false),
    ("2 @1", "2 @2", false),
    ("4 @2", "4 @1", false),
];

const ASKED_TRANSCRIPTS: &[Change] = &[
    ("2 @1 set", "2 @1 clear", false),
    ("faces 6", "faces 5", false),
    ("bounds 1 1 0 1 1 1", "bounds 1 1 0 1 1 2", false),
    ("hit 1 1 0", "hit 1 0 0", false),
    ("hit 1 1 0", "miss", false),
    ("saved 1", "saved 2", false),
    ("bounds none", "bounds 0 0 0 1 1 1", false),
    ("8 @1 different", "8 @0 different", false),
];

#[test]
fn changed_moments_and_answers_are_seen(rt: HostRuntime) -> Result<(), Fail> {
    assert!(rt; is_audited(rt.alloc(), ORDERED, None)?);
    for change in ORDERED_TRANSCRIPTS {
        assert!(rt;
            transcripts_are(rt.alloc(), ORDERED, *change)?,
            "at {}",
            change.1
        );
    }
    assert!(rt; is_audited(rt.alloc(), ASKED, None)?);
    for change in ASKED_TRANSCRIPTS {
        assert!(rt;
            transcripts_are(rt.alloc(), ASKED, *change)?,
            "at {}",
            change.1
        );
    }
    Ok(())
}

// A history that is none: an undo of nothing.
const ILLEGAL: Texts<'static> = Texts {
    journal: "voxdag journal 1\nside 8\n1 0 1 undo\nend\n",
    script: "undo\n",
    transcript: "1 @1 ok\n",
};

#[test]
fn an_illegal_history_is_no_run(rt: HostRuntime) -> Result<(), Fail> {
    assert!(rt; !is_audited(rt.alloc(), ILLEGAL, None)?);
    Ok(())
}

// An edit that met a full bucket of a world of side 4, which has leaves alone.
const FULL: Texts<'static> = Texts {
    journal: "voxdag journal 1\nside 4\n1 0 1 fill 0 0 0 1 1 1\nend\n",
    script: "fill 0 0 0 1 1 1\nfill 1 0 0 1 1 1\nat 1 count 0 0 0 4 4 4\n",
    transcript: "1 @1 ok\n2 @1 full 0 1\n3 @1 count 1\n",
};

#[test]
fn a_full_bucket_is_one_of_those_that_are_there(rt: HostRuntime) -> Result<(), Fail> {
    assert!(rt; is_audited(rt.alloc(), FULL, None)?);
    assert!(rt; is_audited(rt.alloc(), FULL, Some(2))?);
    assert!(rt; !is_audited(rt.alloc(), FULL, Some(1))?);
    let higher = ("full 0 1", "full 1 1", false);
    assert!(rt; transcripts_are(rt.alloc(), FULL, higher)?);
    Ok(())
}
