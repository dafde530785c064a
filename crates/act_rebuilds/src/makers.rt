//! What makes an edit of one root after another.
ghost use Rattle.std.specs.Prelude.{◌≡◌, OnOk, List, option_copied};
ghost use Rattle.node_words.specs.shapes.Tree.{Tree};
ghost use Rattle.node_words.proofs.HeldLaws.{Keeps};
ghost use Rattle.history_model.specs.declared.acts.Act.{Act};
ghost use Rattle.act_rebuilds.specs.Acts.{MakesAct, MayMakeAct};
ghost use Rattle.act_rebuilds.specs.Drawn.{WorldModels};

use crate::drawn::Lends;
use crate::lists::DrawnList;
use crate::rebuild::rebuild_act;
use history_model::Act;
use node_words::{Full, NodeStore, Share, Steps};
use std::sync::ledger::Ledger;
use vw_cell::Side;

/// An edit that may be made of one root after another, while all that was made stays held.
pub trait ActMaker {
    /// The models that it is made by, and whether the cells of its world have tints.
    ghost drawn: { Self → WorldModels };

    ghost act: { Self → Act };

    /// What it remembers was made of trees that are held.
    ghost recalls: { Self → List Tree → Type 0 };

    /// It stays so while more is held.
    ghost recalls_more: { (m : Self) (held more : List Tree) → Keeps held more → recalls m held
        → recalls m more };

    /// The edit.
    fn act(&self) -> Act
        ensures value { result ≡ act self.now };

    /// A share of the root of what the edit makes of the store's cells, where a cell is set then. A
    /// store that met a full bucket holds what it held.
    fn make<N: NodeStore, L: Ledger>(
        &mut self,
        store: &mut N,
        old: Option<&Share>,
        side: Side,
        steps: &mut Steps<L>,
    ) -> Result<Option<Share>, Full>
        requires may { MayMakeAct (N.seen store.old) side (option_copied old) (drawn self.old)
            (act self.old) }
        requires recalls { recalls self.old (N.seen store.old).held }
        ensures drawn { drawn self.new ≡ drawn self.old }
        ensures act { act self.new ≡ act self.old }
        ensures made { MakesAct (N.seen store.old) side (option_copied old.entry)
            (drawn self.old).models (act self.old) result (N.seen store.new) }
        ensures recalls { OnOk result (recalls self.new (N.seen store.new).held) }
        ensures rests { N.rests store.old store.new };
}

/// An edit that is made anew of each root.
#[derive(Drop)]
pub struct AnyAct<'w, B: Lends + Drop> {
    pub models: &'w DrawnList<B>,
    pub edit: Act,
}

impl<'w, B: Lends + Drop> ActMaker for AnyAct<'w, B> {
    ghost drawn = { λ m. m.models.now };

    ghost act = { λ m. m.edit };

    ghost recalls = { λ m held. Unit {0} };

    ghost recalls_more = { λ m held more k r. r };

    fn act(&self) -> Act {
        self.edit
    }

    fn make<N: NodeStore, L: Ledger>(
        &mut self,
        store: &mut N,
        old: Option<&Share>,
        side: Side,
        steps: &mut Steps<L>,
    ) -> Result<Option<Share>, Full> {
        rebuild_act(store, old, side, self.models, self.edit, steps)
    }
}
