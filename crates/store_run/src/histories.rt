//! The history of versions, as a list of its own.
ghost use Rattle.std.specs.Prelude.{◌≡◌, IfOk, OnOk, length};
ghost use Rattle.core_laws.specs.contents.MarkLists.{marks_below, with_mark};
ghost use Rattle.store_run.specs.Kept.{log_of, mark_in, AreStoredVersions};

use crate::stored_versions::Versions;
use history_model::{History, Mark};
use std::alloc::Global;
use vw_cell::Memory;

impl Versions {
    /// A copy of the records and marks.
    #[tactic(auto, using(crate::proofs::Ending::history_is))]
    pub(crate) fn told(&self, alloc: Global) -> Result<History, Memory>
        requires { AreStoredVersions self.now }
        ensures { IfOk result (λ history. history ≡ log_of self.now) }
    {
        let mut records = Vec::with_capacity(alloc, self.records.len())?;
        records.extend_from_slice(self.records.as_slice())?;
        let marks = marks_in(alloc, self.marks.as_slice())?;
        Ok(History {
            side: self.side,
            coloured: self.models.tint(),
            records,
            marks,
        })
    }
}

// The marks, by rising version.
#[tactic(auto, using(crate::proofs::Marking::listed_none, crate::proofs::Marking::listed_next))]
fn marks_in(alloc: Global, marks: &[Option<Mark>]) -> Result<Vec<Mark>, Memory>
    ensures { IfOk result (λ list. list.items ≡ marks_below (mark_in marks.now)
        (length marks.now)) }
{
    let mut list = Vec::new(alloc);
    for mark in marks {
        push_some(&mut list, *mark)?;
    }
    Ok(list)
}

fn push_some(list: &mut Vec<Mark>, mark: Option<Mark>) -> Result<(), Memory>
    ensures { OnOk result (list.new.items ≡ with_mark list.old.items mark) }
{
    if let Some(mark) = mark {
        list.push(mark)?;
    }
    Ok(())
}
