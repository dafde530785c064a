ghost use Rattle.std.specs.Prelude.{◌≡◌, ◌↔◌, IsTrue};
ghost use Rattle.history_model.specs.Logs.{suits_tints};
ghost use Rattle.session.specs.Lendable.{IsLendable};
ghost use Rattle.session.specs.Lent.{IsHandOf};
ghost use Rattle.session.specs.SessionWorlds.{IsActOf};

use crate::hand::Hand;
use act_rebuilds::OwnModels;
use history_model::Act;
use node_table::{NodeTable, Pass};
use node_words::Plan;
use std::marker::Model;

/// Who works on a world.
pub type Session = Pass;

/// A world that many sessions edit and read at the same time, and its models, each drawn once as a
/// stencil.
///
/// Contracts see it as its table, which has its models too, as whether its cells have tints, and as
/// how many last versions alone it holds, or 0 for all.
#[derive(Drop)]
pub struct World {
    pub(crate) table: NodeTable,
    pub(crate) drawn: OwnModels,
    pub(crate) tint: bool,
    pub(crate) keep: u32,
}

impl Model for World {
    ghost use Rattle.std.specs.Coded.{codes};
    ghost use Rattle.std.specs.Prelude.{◌≡◌};
    ghost use Rattle.atomic_table.specs.Seated.{table_id_coded};
    ghost use Rattle.session.specs.SessionWorlds.{KeepsTableModels, SessionWorld};

    ghost Value = { SessionWorld };

    ghost coded = { Prim.hlevel (codes, table_id_coded) };

    ghost view = { λ w. record { table = w.table; tint = w.tint; keep = w.keep } };

    ghost invariant = { λ w. KeepsTableModels w.table w.tint w.drawn };
}

// Whether an act is tinted exactly where cells have tints, or is an undo or a redo.
fn suits(tint: bool, act: &Act) -> bool
    ensures { result ≡ suits_tints tint act.now }
{
    match act {
        Act::Undo | Act::Redo => true,
        Act::Tint(_) => tint,
        _ => !tint,
    }
}

impl World {
    /// How the world is laid out.
    pub fn plan(&self) -> Plan
        ensures value { result ≡ self.now.table.plan }
    {
        self.table.plan()
    }

    /// Whether the act lies in this world, its model is one of the world's, and it is tinted
    /// exactly where cells have tints, or it is an undo or a redo.
    pub fn fits(&self, act: &Act) -> bool
        ensures { IsTrue result ↔ IsActOf self.now act.now }
    {
        suits(self.tint, act) && self.drawn.fits(self.table.plan().side(), act)
    }

    /// The session as a store of nodes, for as long as the hand lives. With `()` to wait with it
    /// can be read, and with a runtime that waits edited too.
    pub fn hand<'a, R>(&'a self, rt: &'a R, s: &'a mut Session) -> Hand<'a, R>
        requires ready { IsLendable self.now.table s.old }
        ensures { IsHandOf self.now.table s.entry result }
    {
        Hand::new(rt, &self.table, s)
    }
}
