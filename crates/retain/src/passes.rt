ghost use Rattle.std.specs.Prelude.{◌≡◌, ◌+◌, ◌<◌, ◌≤◌, ◌++◌, IfOk, length, vec_len, vec_capacity};
ghost use Rattle.retain.specs.Retained.{AreRising, AreAllMarks, falls_out, fallen_by};
ghost use Rattle.retain.specs.Passing.{chosen, marks_behind, next_marks, left_behind};

use crate::fallen::falls_out;
use history_model::{Mark, Record};
use std::alloc::Global;
use vw_cell::Memory;

/// All marks of a history with these records that holds its last `keep` versions alone, of which
/// `forgot` were made by hand: by rising version those, and for each version that fell out and that
/// none of them names the mark of the record that pushed it out. With `keep` 0 none falls out.
pub fn all_marks(
    alloc: Global,
    records: &[Record],
    forgot: &[Mark],
    keep: u32,
) -> Result<Vec<Mark>, Memory>
    requires few { length records.now ≤ 65535 }
    requires rising { AreRising forgot.now }
    ensures { IfOk result (λ marks. AreAllMarks keep records.now forgot.now marks.items) }
{
    let mut marks = Vec::with_capacity(alloc, records.len() + forgot.len())?;
    let mut left = forgot;
    for (index, record) in records.iter().enumerate() {
        left = add_fallen(&mut marks, left, index as u32 + 1, record, keep);
    }
    marks.extend_from_slice(left)?;
    Ok(marks)
}

// Appends the mark of the version that falls out as record n comes, where one does, and gives the
// marks by hand behind it.
fn add_fallen<'m>(
    marks: &mut Vec<Mark>,
    left: &'m [Mark],
    n: u32,
    record: &Record,
    keep: u32,
) -> &'m [Mark]
    requires { vec_len marks.old < vec_capacity marks.old }
    ensures items { let fallen = fallen_by n «record».now (falls_out n keep) in
        marks.new.items ≡ marks.old.items ++ next_marks fallen left.now }
    ensures left { result.now ≡ left_behind (fallen_by n «record».now (falls_out n keep)) left.now }
    ensures len { vec_len marks.new ≤ vec_len marks.old + 1 }
    ensures capacity { vec_capacity marks.new ≡ vec_capacity marks.old }
{
    let Some(version) = falls_out(n, keep) else {
        return left;
    };
    let fallen = Mark {
        version,
        at: n,
        session: record.session,
        line: record.line,
    };
    let (mark, later) = choose(fallen, left);
    marks.push_reserved(mark);
    later
}

// The mark of the version that fell out, that made by hand where there is one, and the marks by
// hand behind it.
fn choose<'m>(fallen: Mark, left: &'m [Mark]) -> (Mark, &'m [Mark])
    ensures mark { result.0 ≡ chosen fallen left.now }
    ensures behind { result.1.now ≡ marks_behind fallen left.now }
{
    let Some((first, later)) = left.split_first() else {
        return (fallen, left);
    };
    if first.version == fallen.version {
        (*first, later)
    } else {
        (fallen, left)
    }
}
