ghost use Rattle.std.specs.Prelude.{◌≡◌, ◌+◌, ◌<◌, ◌==◌, ℕ, Some, Option, if◌then◌else◌, length, IfOk, unwrap_or};
ghost use Rattle.std.specs.Ordering.{nat_cmp};
ghost use Rattle.std.specs.BTreeMap.{get};
ghost use Rattle.history_model.specs.Logs.{Log};
ghost use Rattle.node_words.specs.declared.shapes.names.Name.{Name};
ghost use Rattle.core_laws.specs.contents.Versions.{HoldsVersion};
ghost use Rattle.report.specs.Roots.{AreKeptRoots, RowsBelow, FirstsBelow, root_in_list, root_number};

use node_words::Name;
use std::alloc::Global;
use std::collections::BTreeMap;
use vw_cell::Memory;
use world_core::Root;

/// What a report says of a version that is kept.
#[derive(Clone, Copy, Debug, PartialEq, Eq)]
pub struct ReportRow {
    pub version: u32,
    /// The first kept version with the same cells, none where no cell is set.
    pub first: Option<u32>,
}

// The rows of all kept versions, by their roots.
pub(crate) fn rows(alloc: Global, roots: &[Root]) -> Result<Vec<ReportRow>, Memory>
    ensures { IfOk result (λ rows. (log : Log) → AreKeptRoots log roots.now
        → RowsBelow log (root_in_list roots.now) (length log.records + 1) rows.items) }
{
    let mut firsts = BTreeMap::new(alloc);
    let mut rows = Vec::with_capacity(alloc, roots.len())?;
    for root in roots {
        add_row(&mut rows, &mut firsts, *root)?;
    }
    Ok(rows)
}

// Adds the row of a version that is kept.
fn add_row(
    rows: &mut Vec<ReportRow>,
    firsts: &mut BTreeMap<u32, u32>,
    root: Root,
) -> Result<(), Memory>
    ensures { IfOk result (λ _. (log : Log) (root_of : ℕ → Option Name)
        → root.name ≡ root_of root.version → HoldsVersion log root.version
        → RowsBelow log root_of root.version rows.old.items
        → FirstsBelow log root_of root.version (get nat_cmp firsts.old)
        → RowsBelow log root_of (root.version + 1) rows.new.items
        × FirstsBelow log root_of (root.version + 1) (get nat_cmp firsts.new)) }
{
    let Root { version, name } = root;
    let first = match name {
        Some(n) => Some(first_with(firsts, n, version)?),
        None => None,
    };
    rows.push(ReportRow { version, first })?;
    Ok(())
}

// The version that is listed for the root, which is this one where there was none.
fn first_with(firsts: &mut BTreeMap<u32, u32>, n: Name, version: u32) -> Result<u32, Memory>
    ensures first { IfOk result
        (λ first. first ≡ unwrap_or (get nat_cmp firsts.old (root_number n)) version) }
    ensures listed { IfOk result (λ first. (k : ℕ) → get nat_cmp firsts.new k
        ≡ if k == root_number n then Some first else get nat_cmp firsts.old k) }
    ensures bucket { n.bucket < 65536 }
    ensures slot { n.slot < 256 }
{
    let number = number_of(n);
    if let Some(first) = firsts.get(&number) {
        return Ok(*first);
    }
    firsts.insert(number, version)?;
    Ok(version)
}

// The root as a number.
fn number_of(n: Name) -> u32
    ensures { result ≡ root_number n }
{
    u32::from(n.level) * 16_777_216 + (u32::from(n.bucket) * 256 + u32::from(n.slot))
}
