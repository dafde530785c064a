ghost use Rattle.world_core.specs.SlotStatements.{ListsStayLaidOut, OtherSlotsStay, SlotsAdd};
ghost use Rattle.world_core.specs.SlotStatements.{SlotsFree, SlotsHold, SlotsLower, SlotsRaise};

/// A slot of nested lists that gets another content is an event of the state that they show.
pub fn slots_step()
    ensures raise { SlotsRaise }
    ensures add { SlotsAdd }
    ensures lower { SlotsLower }
    ensures free { SlotsFree }
{}

/// One slot changes, and no other.
pub fn slots_hold()
    ensures here { SlotsHold }
    ensures others { OtherSlotsStay }
    ensures laid_out { ListsStayLaidOut }
{}
