ghost use Rattle.std.specs.Prelude.{◌≡◌, ◌≤◌, ◌-◌, option_copied, IfOk, OnErr};
ghost use Rattle.testkit.specs.worlds.Roots.{HoldsOnly, HoldsTwo};

use edit_copy::rebuild_copy;
use edit_ops::{rebuild_ball, rebuild_box};
use edit_stamp::{Stencil, rebuild_stamp, rebuild_unstamp};
use history_model::Act;
use node_words::{Full, NodeStore, Share, Steps};
use std::sync::ledger::Ledger;
use vw_cell::{Ball, Boxed, Cell, Side};

/// Why an act gave no new root.
#[derive(Clone, Copy, Debug, PartialEq, Eq)]
pub enum Refusal {
    /// It leaves the world, or is no edit.
    Unfit,
    Full(Full),
}

// The root that an edit makes, beside the old one. A stamp is one of the stencil, whatever its
// model's number, and sets or clears its cells.
pub(crate) fn version<N: NodeStore, L: Ledger>(
    store: &mut N,
    old: Option<&Share>,
    side: Side,
    stencil: &Stencil,
    set: bool,
    act: &Act,
    steps: &mut Steps<L>,
) -> Result<Option<Share>, Refusal>
    requires side { side ≡ (N.seen store.old).plan.side }
    requires only { HoldsOnly (N.seen store.old).held (side - 2) (option_copied old) }
    ensures ok { IfOk result
        (λ r. HoldsTwo (N.seen store.new).held (side - 2) (option_copied old.entry) r) }
    ensures refused { OnErr result
        (HoldsOnly (N.seen store.new).held (side - 2) (option_copied old.entry)) }
    ensures plan { (N.seen store.new).plan ≡ (N.seen store.old).plan }
    ensures rests { N.rests store.old store.new }
{
    match *act {
        Act::Fill(b) => boxed(store, old, side, b, true, steps),
        Act::Erase(b) => boxed(store, old, side, b, false, steps),
        Act::Ball(ball) => balled(store, old, side, ball, true, steps),
        Act::Carve(ball) => balled(store, old, side, ball, false, steps),
        Act::Copy(from, to) => copied(store, old, side, from, to, steps),
        Act::Stamp(_, at) => {
            if set {
                stamped(store, old, side, stencil, at, steps)
            } else {
                unstamped(store, old, side, stencil, at, steps)
            }
        }
        Act::Tint(_) | Act::Undo | Act::Redo => Err(Refusal::Unfit),
    }
}

fn boxed<N: NodeStore, L: Ledger>(
    store: &mut N,
    old: Option<&Share>,
    side: Side,
    b: Boxed,
    set: bool,
    steps: &mut Steps<L>,
) -> Result<Option<Share>, Refusal>
    requires side { side ≡ (N.seen store.old).plan.side }
    requires only { HoldsOnly (N.seen store.old).held (side - 2) (option_copied old) }
    ensures ok { IfOk result
        (λ r. HoldsTwo (N.seen store.new).held (side - 2) (option_copied old.entry) r) }
    ensures refused { OnErr result
        (HoldsOnly (N.seen store.new).held (side - 2) (option_copied old.entry)) }
    ensures plan { (N.seen store.new).plan ≡ (N.seen store.old).plan }
    ensures rests { N.rests store.old store.new }
{
    match Boxed::new(b.at, b.size, side) {
        None => Err(Refusal::Unfit),
        Some(b) => match rebuild_box(store, old, side, b, set, steps) {
            Ok(share) => Ok(share),
            Err(full) => Err(Refusal::Full(full)),
        },
    }
}

fn balled<N: NodeStore, L: Ledger>(
    store: &mut N,
    old: Option<&Share>,
    side: Side,
    ball: Ball,
    set: bool,
    steps: &mut Steps<L>,
) -> Result<Option<Share>, Refusal>
    requires side { side ≡ (N.seen store.old).plan.side }
    requires only { HoldsOnly (N.seen store.old).held (side - 2) (option_copied old) }
    ensures ok { IfOk result
        (λ r. HoldsTwo (N.seen store.new).held (side - 2) (option_copied old.entry) r) }
    ensures refused { OnErr result
        (HoldsOnly (N.seen store.new).held (side - 2) (option_copied old.entry)) }
    ensures plan { (N.seen store.new).plan ≡ (N.seen store.old).plan }
    ensures rests { N.rests store.old store.new }
{
    match Ball::new(ball.centre, ball.radius, side) {
        None => Err(Refusal::Unfit),
        Some(ball) => match rebuild_ball(store, old, side, ball, set, steps) {
            Ok(share) => Ok(share),
            Err(full) => Err(Refusal::Full(full)),
        },
    }
}

fn copied<N: NodeStore, L: Ledger>(
    store: &mut N,
    old: Option<&Share>,
    side: Side,
    from: Boxed,
    to: Cell,
    steps: &mut Steps<L>,
) -> Result<Option<Share>, Refusal>
    requires side { side ≡ (N.seen store.old).plan.side }
    requires only { HoldsOnly (N.seen store.old).held (side - 2) (option_copied old) }
    ensures ok { IfOk result
        (λ r. HoldsTwo (N.seen store.new).held (side - 2) (option_copied old.entry) r) }
    ensures refused { OnErr result
        (HoldsOnly (N.seen store.new).held (side - 2) (option_copied old.entry)) }
    ensures plan { (N.seen store.new).plan ≡ (N.seen store.old).plan }
    ensures rests { N.rests store.old store.new }
{
    match (
        Boxed::new(from.at, from.size, side),
        Boxed::new(to, from.size, side),
    ) {
        (Some(from), Some(_)) => match rebuild_copy(store, old, side, from, to, steps) {
            Ok(share) => Ok(share),
            Err(full) => Err(Refusal::Full(full)),
        },
        _ => Err(Refusal::Unfit),
    }
}

fn stamped<N: NodeStore, L: Ledger>(
    store: &mut N,
    old: Option<&Share>,
    side: Side,
    stencil: &Stencil,
    at: Cell,
    steps: &mut Steps<L>,
) -> Result<Option<Share>, Refusal>
    requires side { side ≡ (N.seen store.old).plan.side }
    requires only { HoldsOnly (N.seen store.old).held (side - 2) (option_copied old) }
    ensures ok { IfOk result
        (λ r. HoldsTwo (N.seen store.new).held (side - 2) (option_copied old.entry) r) }
    ensures refused { OnErr result
        (HoldsOnly (N.seen store.new).held (side - 2) (option_copied old.entry)) }
    ensures plan { (N.seen store.new).plan ≡ (N.seen store.old).plan }
    ensures rests { N.rests store.old store.new }
{
    match Boxed::new(at, stencil.size(), side) {
        None => Err(Refusal::Unfit),
        Some(_) => match rebuild_stamp(store, old, side, stencil, at, steps) {
            Ok(share) => Ok(share),
            Err(full) => Err(Refusal::Full(full)),
        },
    }
}

fn unstamped<N: NodeStore, L: Ledger>(
    store: &mut N,
    old: Option<&Share>,
    side: Side,
    stencil: &Stencil,
    at: Cell,
    steps: &mut Steps<L>,
) -> Result<Option<Share>, Refusal>
    requires side { side ≡ (N.seen store.old).plan.side }
    requires only { HoldsOnly (N.seen store.old).held (side - 2) (option_copied old) }
    ensures ok { IfOk result
        (λ r. HoldsTwo (N.seen store.new).held (side - 2) (option_copied old.entry) r) }
    ensures refused { OnErr result
        (HoldsOnly (N.seen store.new).held (side - 2) (option_copied old.entry)) }
    ensures plan { (N.seen store.new).plan ≡ (N.seen store.old).plan }
    ensures rests { N.rests store.old store.new }
{
    match Boxed::new(at, stencil.size(), side) {
        None => Err(Refusal::Unfit),
        Some(_) => match rebuild_unstamp(store, old, side, stencil, at, steps) {
            Ok(share) => Ok(share),
            Err(full) => Err(Refusal::Full(full)),
        },
    }
}
