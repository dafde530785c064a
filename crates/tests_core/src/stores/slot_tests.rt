ghost use Rattle.std.specs.Prelude.{◌≡◌, ◌≤◌, ◌<◌, None};
ghost use Rattle.one_store.specs.Known.{stored_root};

use crate::stores::calls::{joined, kept, returned, rooted};
use node_words::{Full, Name, NodeStore, Plan, Steps};
use one_store::OneStore;
use std::alloc::Global;
use std::marker::Brand;
use std::sync::ledger::{Blank, Ledger};
use std::test::Fail;
use vw_cell::Side;

// What a call is to answer: the slot of a name in bucket 0, or that the bucket is full.
fn is_at(answer: Result<Name, Full>, level: u8, slot: Option<u8>) -> bool {
    match answer {
        Ok(n) => slot == Some(n.slot) && n.level == level && n.bucket == 0,
        Err(full) => slot.is_none() && full.level == level && full.bucket == 0,
    }
}

#[derive(Clone, Copy)]
enum Call {
    Keep,
    Return,
    Join,
}

fn answers<L: Ledger>(
    store: &mut OneStore,
    call: Call,
    bits: u64,
    steps: &mut Steps<L>,
) -> Result<Name, Full>
    requires { 3 ≤ store.old.words.plan.side }
    ensures { store.new.words.plan ≡ store.old.words.plan }
{
    if bits == 0 || store.held() > 4000 {
        return Err(Full {
            level: 255,
            bucket: 0,
        });
    }
    match call {
        Call::Keep => kept(store, bits, steps),
        Call::Return => returned(store, bits, steps),
        Call::Join => joined(store, bits, steps),
    }
}

/// A call of a table that isn't answered as it should be, by its number, and its answer.
type Wrong = Option<(usize, Result<Name, Full>)>;

// The first wrong one.
fn wrong_answer<L: Ledger>(
    store: &mut OneStore,
    calls: &[(Call, u64, u8, Option<u8>)],
    steps: &mut Steps<L>,
) -> Wrong
    requires { 3 ≤ store.old.words.plan.side }
{
    for k in 0..calls.len() {
        let (call, bits, level, slot) = calls[k];
        let answer = answers(store, call, bits, steps);
        if !is_at(answer, level, slot) {
            return Some((k, answer));
        }
    }
    None
}

fn table_of<L: Ledger>(
    store: &mut OneStore,
    calls: &[(Call, u64, u8, Option<u8>)],
    blank: Blank,
) -> Wrong
    requires name { blank.name ≡ L.name }
    requires parts { blank.parts ≡ L.parts }
    requires some { 0 < L.parts }
    requires side { 3 ≤ store.old.words.plan.side }
{
    let mut steps: Steps<L> = Steps::start(blank);
    wrong_answer(store, calls, &mut steps)
}

// One bucket of two slots on each level.
#[test]
fn keys_come_into_the_lowest_free_slot(rt: HostRuntime) -> Result<(), Fail> {
    let calls = [
        (Call::Return, 1, 0, Some(0)),
        (Call::Return, 2, 0, Some(0)),
        (Call::Keep, 3, 0, Some(0)),
        (Call::Return, 4, 0, Some(1)),
        (Call::Join, 5, 1, Some(0)),
        (Call::Keep, 5, 0, Some(1)),
        (Call::Keep, 3, 0, Some(0)),
        (Call::Keep, 6, 0, None),
        (Call::Join, 5, 1, Some(0)),
        (Call::Join, 3, 1, Some(1)),
        (Call::Join, 7, 0, None),
    ];
    let side = Side::new(8).ok_or("a side")?;
    let plan = Plan::even(side, 1, 2).ok_or("a plan")?;
    let mut store = OneStore::begin(rt.alloc(), &plan)?;
    let wrong = table_of::<Brand>(&mut store, &calls, Blank::new(1));
    assert_eq!(rt; wrong, None);
    Ok(())
}

fn root_of<L: Ledger>(store: &mut OneStore, place: u32, blank: Blank) -> Result<Name, Full>
    requires name { blank.name ≡ L.name }
    requires parts { blank.parts ≡ L.parts }
    requires some { 0 < L.parts }
    requires side { store.old.words.plan.side ≤ 2 }
    requires room { number_of_trees (known_state store.old).held ≤ 4000 }
    requires place { place ≤ 65535 }
    requires empty { stored_root store.old.roots place ≡ None }
{
    let mut steps: Steps<L> = Steps::start(blank);
    rooted(store, 9, place, &mut steps)
}

ghost use Rattle.node_words.specs.shapes.Weights.{number_of_trees};
ghost use Rattle.one_store.specs.Known.{known_state};

// A world of one leaf, of one slot.
#[test]
fn roots_stay_in_their_places(rt: HostRuntime) -> Result<(), Fail> {
    let first = Name {
        level: 0,
        bucket: 0,
        slot: 0,
    };
    let side = Side::new(4).ok_or("a side")?;
    let plan = Plan::even(side, 1, 1).ok_or("a plan")?;
    let mut store = OneStore::begin(rt.alloc(), &plan)?;
    if store.held() == 0 && side.root_level() == 0 {
        let rooted = root_of::<Brand>(&mut store, 3, Blank::new(1));
        assert!(rt; rooted == Ok(first));
    }
    assert_eq!(rt; store.held(), 0);
    assert_eq!(rt; store.live(0), 1);
    if store.held() == 0 {
        let shared = store.root_share(3).map(|share| share.spend());
        assert!(rt; shared == Some(first));
    }
    assert_eq!(rt; store.held(), 1);
    if store.held() == 1 {
        let taken = store.take_root(3).map(|share| share.spend());
        assert!(rt; taken == Some(first));
    }
    assert_eq!(rt; store.held(), 2);
    if store.held() == 2 {
        let taken = store.take_root(3).map(|share| share.spend());
        assert!(rt; taken.is_none());
    }
    Ok(())
}
