ghost use Rattle.std.specs.Prelude.{◌≡◌, ◌<◌, ◌≤◌, ◌+◌, ◌↔◌, IsTrue, IfOk, MatchOption, length, slice_index_or, Some, None, List, ℕ};
ghost use Rattle.store_run.specs.Marked.{AreLegalMarks};
ghost use Rattle.audit.specs.Marks.{TellsMarks, HeldBy, StandsBy, MarkedBy, ForgottenBy};

use history_model::Mark;
use std::alloc::Global;
use vw_cell::Memory;

/// The most records of a history.
pub(crate) const RECORDS: usize = 65_535;

// The mark of each version up to this one, where the marks are legal.
pub(crate) fn mark_table(
    alloc: Global,
    marks: &[Mark],
    count: usize,
) -> Result<Option<Vec<Option<Mark>>>, Memory>
    requires few { count ≤ 65535 }
    ensures { IfOk result (λ table. MatchOption table (AreLegalMarks count marks.now → ⊥)
        (λ t. AreLegalMarks count marks.now × TellsMarks marks.now t.items)) }
{
    let mut table = vec![in alloc; None; count + 1]?;
    let mut next: u32 = 0;
    for mark in marks {
        if !is_next(*mark, next, count) {
            return Ok(None);
        }
        next = mark.version + 1;
        table[mark.version as usize] = Some(*mark);
    }
    Ok(Some(table))
}

// Whether the mark can follow those before it, whose versions are below `next`.
fn is_next(mark: Mark, next: u32, count: usize) -> bool
    requires few { count ≤ 65535 }
    ensures { IsTrue result
        ↔ ((next ≤ mark.version) × (mark.version < mark.at) × (mark.at ≤ count)) }
{
    next <= mark.version && mark.version < mark.at && mark.at as usize <= count
}

// The mark of a version.
pub(crate) fn mark_of(table: &[Option<Mark>], version: u32) -> Option<Mark>
    ensures { result ≡ slice_index_or table.now version None }
{
    match table.get(version as usize) {
        Some(mark) => *mark,
        None => None,
    }
}

// Whether record n can go to the version of this mark.
pub(crate) fn is_held(mark: Option<Mark>, n: u32) -> bool
    ensures { IsTrue result ↔ HeldBy mark n }
{
    match mark {
        None => true,
        Some(mark) => n <= mark.at,
    }
}

// Whether the version of this mark isn't surely forgotten for the session's line at moment n.
pub(crate) fn stands(mark: Option<Mark>, session: u16, line: u32, n: u32) -> bool
    ensures { IsTrue result ↔ StandsBy mark session line n }
{
    match mark {
        None => true,
        Some(mark) => n <= mark.at && (mark.session != session || line <= mark.line),
    }
}

// Whether it was marked at n records or fewer.
pub(crate) fn is_marked_by(mark: Option<Mark>, n: u32) -> bool
    ensures { IsTrue result ↔ MarkedBy mark n }
{
    match mark {
        None => false,
        Some(mark) => mark.at <= n,
    }
}

// Whether it is possibly forgotten.
pub(crate) fn is_forgotten(mark: Option<Mark>, session: u16, line: u32, n: u32) -> bool
    ensures { IsTrue result ↔ ForgottenBy mark session line n }
{
    match mark {
        None => false,
        Some(mark) => mark.at <= n && (mark.session != session || mark.line < line),
    }
}

// Whether it is this mark.
pub(crate) fn is_mark(mark: Option<Mark>, wanted: Mark) -> bool
    ensures { IsTrue result ↔ (mark ≡ Some wanted) }
{
    match mark {
        None => false,
        Some(mark) => {
            mark.version == wanted.version
                && mark.at == wanted.at
                && mark.session == wanted.session
                && mark.line == wanted.line
        }
    }
}
