// What a session steps with.
ghost use Rattle.std.specs.Prelude.{◌≡◌, ◌≤◌, ◌∷◌, [], None, false};
ghost use Rattle.node_words.specs.shapes.Weights.{number_of_trees};
ghost use Rattle.node_words.specs.Held.{AreCanonical, AreTrees};
ghost use Rattle.table_rule.specs.LogFacts.{number_seen};
ghost use Rattle.table_rule.specs.ViewFacts.{ViewFacts};

use crate::rule::View;
use atomic_table::Seat;
use std::marker::Model;

/// A seat of a table, with the number of its session.
pub(crate) struct NumberedSeat {
    pub(crate) number: u16,
    pub(crate) seat: Seat<u8, View>,
}

impl Model for NumberedSeat {
    ghost use Rattle.std.specs.Coded.{codes};
    ghost use Rattle.std.specs.Prelude.{[], true, ◌<◌, ◌≡◌, ◌∷◌};
    ghost use Rattle.atomic_table.specs.Seated.{table_id_coded};
    ghost use Rattle.node_words.specs.shapes.ShapeCode.{coded_shape};
    ghost use Rattle.node_words.specs.shapes.TreeCode.{coded_tree};
    ghost use Rattle.node_table.specs.TableStates.{PassState};
    ghost use Rattle.table_rule.specs.ViewFacts.{ViewFacts};

    ghost Value = { PassState };

    ghost coded = { Prim.hlevel (codes, coded_tree, coded_shape, table_id_coded) };

    ghost view = { λ p. record { table = p.seat.table_id; view = p.seat.me.0 } };

    ghost invariant = { λ p. (p.seat.me.0.numbers ≡ p.number ∷ []) × (p.number < 64)
        × (p.seat.me.1 ≡ []) × (p.seat.me.0.alive ≡ true) × ViewFacts p.seat.me.0 };
}

/// What a session steps with. It must be spent.
pub struct Pass {
    pub(crate) seat: NumberedSeat,
    pub(crate) held: u32,
    pub(crate) seen: u32,
}

impl Model for Pass {
    ghost use Rattle.std.specs.Coded.{codes};
    ghost use Rattle.std.specs.Prelude.{◌≡◌};
    ghost use Rattle.atomic_table.specs.Seated.{table_id_coded};
    ghost use Rattle.node_words.specs.shapes.ShapeCode.{coded_shape};
    ghost use Rattle.node_words.specs.shapes.TreeCode.{coded_tree};
    ghost use Rattle.node_words.specs.shapes.Weights.{number_of_trees};
    ghost use Rattle.node_table.specs.TableStates.{PassState};
    ghost use Rattle.table_rule.specs.LogFacts.{number_seen};

    ghost Value = { PassState };

    ghost coded = { Prim.hlevel (codes, coded_tree, coded_shape, table_id_coded) };

    ghost view = { λ p. p.seat };

    ghost invariant = { λ p. (p.held ≡ number_of_trees p.seat.view.held)
        × (p.seen ≡ number_seen p.seat.view) };
}

impl Pass {
    /// The number of the session.
    pub fn number(&self) -> u16
        ensures { self.now.view.numbers ≡ result ∷ [] }
    {
        number_of(&self.seat)
    }

    /// How many shares the pass holds.
    pub fn held(&self) -> u32
        ensures number { result ≡ number_of_trees self.now.view.held }
        ensures trees { AreTrees self.now.view.plan.side self.now.view.held }
        ensures canonical { AreCanonical self.now.view.held }
    {
        tell(&self.seat);
        self.held
    }

    // How many records of the log the pass has seen.
    pub(crate) fn seen(&self) -> u32
        ensures number { result ≡ number_seen self.now.view }
        ensures few { result ≤ 65535 }
    {
        tell(&self.seat);
        self.seen
    }

    /// What the pass tells of the trees that it reaches, of its log and of the roots that its log's
    /// turn has shown. No step is made.
    pub fn tell(&self)
        ensures { ViewFacts self.now.view }
    {
        tell(&self.seat);
    }

    /// Gives the pass up. Its table can then only be dropped.
    pub fn end(self)
        requires held { self.view.held ≡ [] }
        requires turn { self.view.turn ≡ None }
        requires log_turn { self.view.log.turn ≡ false }
    {
        let Pass {
            seat,
            held: _,
            seen: _,
        } = self;
        let NumberedSeat { number: _, seat: _ } = seat;
    }
}

fn number_of(seat: &NumberedSeat) -> u16
    ensures { seat.now.view.numbers ≡ result ∷ [] }
{
    seat.number
}

// What a seat tells by itself.
pub(crate) fn tell(seat: &NumberedSeat)
    ensures { ViewFacts seat.now.view }
{
    let _number = seat.number;
}
