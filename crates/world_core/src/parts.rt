ghost use Rattle.std.specs.Prelude.{◌≡◌, [], None, IfOk, replicate, false};

use crate::{Entries, Holding};
use history_model::History;
use node_words::{Name, Plan};
use std::alloc::{AllocError, Global};
use vox_read::Models;
use vw_cell::Memory;

// What the core keeps: `specs/Kept.antt` sees it as plain lists.
#[derive(Drop)]
pub(crate) struct Parts<'m> {
    pub(crate) plan: Plan,
    pub(crate) models: &'m Models,
    pub(crate) entries: Entries,
    pub(crate) roots: Vec<Option<Name>>,
    pub(crate) history: History,
    pub(crate) held: Vec<Holding>,
}

/// How many versions a log has room for.
const VERSIONS: usize = 65_536;

// No version has a root.
pub(crate) fn no_roots(alloc: Global) -> Result<Vec<Option<Name>>, AllocError>
    ensures { IfOk result (λ roots. roots.items ≡ replicate 65536 None) }
{
    vec![in alloc; None; VERSIONS]
}

// Nobody holds anything.
pub(crate) fn no_holdings(alloc: Global, sessions: u16) -> Result<Vec<Holding>, Memory>
    ensures { IfOk result (λ held. held.items ≡ replicate sessions []) }
{
    let mut held = Vec::with_capacity(alloc, usize::from(sessions))?;
    for _ in 0..sessions {
        held.push(Holding::new(alloc))?;
    }
    Ok(held)
}

// No record was appended.
pub(crate) fn no_history(alloc: Global, plan: &Plan) -> History
    ensures history { result
        ≡ record { side = plan.now.side; coloured = false; records = []; marks = [] } }
    ensures plan { IsPlan plan.now }
{
    History {
        side: plan.side(),
        coloured: false,
        records: Vec::new(alloc),
        marks: Vec::new(alloc),
    }
}

ghost use Rattle.node_words.specs.Plans.{IsPlan};
