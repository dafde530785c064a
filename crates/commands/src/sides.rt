//! The side of the world that a store keeps.
ghost use Rattle.std.specs.Prelude.{◌≡◌, ◌≤◌, true, IfSome};
ghost use Rattle.history_model.specs.Logs.{store_exponent};
ghost use Rattle.requests.specs.Orders.{world_exponent};

use vw_cell::Side;

/// The side of the world that a store of this side keeps: its own, or a quarter of it where cells
/// have tints. Neither words nor a journal ask for tints in a store that has no such quarter.
#[tactic(auto, using(crate::proofs::WorldSides::quarter_side))]
pub fn world_kept(side: Side, tint: bool) -> Option<Side>
    ensures side { IfSome result (λ s. s ≡ world_exponent tint side) }
    ensures kept { IfSome result (λ s. store_exponent tint s ≡ side) }
    ensures large { IfSome result (λ s. tint ≡ true → 4 ≤ side) }
{
    if !tint {
        return Some(side);
    }
    if side.exponent() < 4 {
        return None;
    }
    Side::new(side.cells() / 4)
}
