//! What closing a table gives, and what comes back where it is refused.
ghost use Rattle.std.specs.Prelude.{All, IfSome};
ghost use Rattle.node_table.specs.Closing.{IsSpare};

use crate::calls::{begun, begun_small, ended};
use crate::threads::all_take;
use node_table::{Closed, NodeTable, Pass, Root, TableCloseRefused};
use node_words::Plan;
use std::alloc::{AllocFailed, Global};
use std::sync::Wait;
use std::thread::Threads;
use vw_cell::Side;

// Whether nothing is live on any level.
fn none_live(live: &[u32; 11]) -> bool {
    for number in live {
        if *number > 0 {
            return false;
        }
    }
    true
}

// Whether no command was logged, version 0 has no root, and nothing is live.
fn is_blank(closed: &Closed) -> bool {
    let roots = closed.roots.as_slice();
    let blank = Root {
        version: 0,
        name: None,
    };
    let history = &closed.history;
    let empty = history.records.is_empty() && history.marks.is_empty();
    roots.len() == 1 && roots[0] == blank && none_live(&closed.live) && empty
}

// Whether closing the table tells that nothing was left.
#[tactic(auto, using(crate::proofs::Giving::back_spare))]
pub fn closes_blank(alloc: Global, table: NodeTable, passes: Vec<Pass>) -> bool
    requires { All (IsSpare table) passes.items }
{
    match table.close(alloc, passes) {
        Ok(closed) => is_blank(&closed),
        Err(
            TableCloseRefused::Count {
                table,
                passes,
                made: _,
            },
        ) => ended(&table, passes) > 64,
        Err(TableCloseRefused::Memory { table, passes }) => ended(&table, passes) > 64,
    }
}

// How many passes were made and how many came back, where closing is refused for those missing.
#[tactic(auto, using(crate::proofs::Giving::back_spare))]
fn is_refused(alloc: Global, table: NodeTable, passes: Vec<Pass>) -> Option<(u16, u32)>
    requires { All (IsSpare table) passes.items }
{
    match table.close(alloc, passes) {
        Err(
            TableCloseRefused::Count {
                table,
                passes,
                made,
            },
        ) => {
            let number = ended(&table, passes);
            Some((made, number))
        }
        Err(TableCloseRefused::Memory { table, passes }) => {
            let _number = ended(&table, passes);
            None
        }
        Ok(_) => None,
    }
}

// Whether a table that was refused without one of its passes is closed with it.
fn closes_later(alloc: Global, table: NodeTable, mut passes: Vec<Pass>, kept: Pass) -> bool
    requires passes { All (IsSpare table) passes.items }
    requires kept { IsSpare table kept }
{
    match passes.push(kept) {
        Ok(()) => closes_blank(alloc, table, passes),
        Err(AllocFailed { value }) => {
            value.end();
            ended(&table, passes) > 64
        }
    }
}

/// Whether closing the table with these two passes tells that nothing was left.
pub fn closes_with(alloc: Global, table: NodeTable, first: Pass, second: Pass) -> bool
    requires first { IsSpare table first }
    requires second { IsSpare table second }
{
    let mut passes = Vec::new(alloc);
    match passes.push(first) {
        Ok(()) => closes_later(alloc, table, passes, second),
        Err(AllocFailed { value }) => {
            value.end();
            second.end();
            passes.destroy_empty();
            false
        }
    }
}

// Whether closing is refused while one pass is kept back, and then isn't.
fn is_refused_once(alloc: Global, table: NodeTable, mut passes: Vec<Pass>) -> bool
    requires { All (IsSpare table) passes.items }
{
    let Some(kept) = passes.pop() else {
        return ended(&table, passes) > 64;
    };
    match table.close(alloc, passes) {
        Err(
            TableCloseRefused::Count {
                table,
                passes,
                made,
            },
        ) => {
            let counted = made == 2 && passes.len() == 1;
            let closed = closes_later(alloc, table, passes, kept);
            counted && closed
        }
        Err(TableCloseRefused::Memory { table, passes }) => {
            kept.end();
            ended(&table, passes) > 64
        }
        Ok(_) => {
            kept.end();
            false
        }
    }
}

// Drops the table, then ends its passes, and says how many there were.
fn outlive(table: NodeTable, mut passes: Vec<Pass>) -> u32
    requires { All (IsSpare table) passes.items }
{
    drop(table);
    let mut number: u32 = 0;
    while let Some(pass) = passes.pop() {
        number = number.saturating_add(1);
        pass.end();
    }
    passes.destroy_empty();
    number
}

// A table of a world of side 8 by the usual plan, with two passes.
fn begun_by_two(alloc: Global) -> Option<(NodeTable, Vec<Pass>)>
    ensures { IfSome result (λ r. All (IsSpare r.0) r.1.items) }
{
    match Side::new(8) {
        Some(side) => begun(alloc, &Plan::usual(side), 2),
        None => None,
    }
}

fn new_is_blank(alloc: Global) -> bool {
    match begun_by_two(alloc) {
        Some((table, passes)) => closes_blank(alloc, table, passes),
        None => false,
    }
}

#[test]
fn a_new_table_is_blank(rt: HostRuntime) {
    assert!(rt;
        new_is_blank(rt.alloc()),
        "wanted is a closed table of version 0 alone"
    );
}

fn new_is_refused_once(alloc: Global) -> bool {
    match begun_by_two(alloc) {
        Some((table, passes)) => is_refused_once(alloc, table, passes),
        None => false,
    }
}

#[test]
fn a_pass_too_few_is_refused(rt: HostRuntime) {
    let is_refused = new_is_refused_once(rt.alloc());
    assert!(rt;
        is_refused,
        "wanted is a refusal with 1 of 2 passes, then a closed table"
    );
}

// Both passes are given up, so the table can only be dropped. How many were given up comes before
// the numbers of the refusal.
fn none_is_refused(alloc: Global) -> (u32, Option<(u16, u32)>) {
    match begun_by_two(alloc) {
        Some((table, passes)) => {
            let number = ended(&table, passes);
            (number, is_refused(alloc, table, Vec::new(alloc)))
        }
        None => (0, None),
    }
}

#[test]
fn no_pass_is_refused(rt: HostRuntime) {
    assert_eq!(rt; none_is_refused(rt.alloc()), (2, Some((2, 0))));
}

fn two_outlive(alloc: Global) -> Option<u32> {
    match begun_by_two(alloc) {
        Some((table, passes)) => Some(outlive(table, passes)),
        None => None,
    }
}

// A table is dropped while its passes are out.
#[test]
fn passes_outlive_their_table(rt: HostRuntime) {
    assert_eq!(rt; two_outlive(rt.alloc()), Some(2));
}

fn four_close_blank<R: Threads + Wait + Sync>(rt: &R, alloc: Global) -> bool {
    match begun_small(alloc, 4, 4) {
        Some((table, passes)) => {
            let passes = all_take(rt, &table, passes);
            closes_blank(alloc, table, passes)
        }
        None => false,
    }
}

// Whatever four threads took and gave back, nothing is left.
#[test]
fn four_threads_close_blank(rt: HostRuntime) {
    let is_blank = four_close_blank(&rt, rt.alloc());
    assert!(rt; is_blank, "wanted is a closed table of version 0 alone");
}
