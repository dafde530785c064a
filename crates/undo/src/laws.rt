ghost use Rattle.std.specs.Prelude.{◌≡◌, ◌+◌, ◌++◌, ◌∷◌, [], List, length};
ghost use Rattle.history_model.specs.declared.histories.Record.{Record};
ghost use Rattle.history_model.specs.Positions.{next_position, position_after};

/// Where a history with one more record stands: what its act makes of the position before.
#[tactic(auto, using(crate::proofs::TrailLaws::position_next))]
pub fn one_more_record_moves_on()
    ensures { (records : List Record) (r : Record) → position_after (records ++ r ∷ [])
        ≡ next_position (length records + 1) r.act (position_after records) }
{}
