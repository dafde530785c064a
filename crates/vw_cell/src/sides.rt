ghost use Rattle.std.specs.Prelude.{◌≡◌, ◌↔◌, ℕ, ◌^◌, ◌≤◌, ◌-◌, IsSome, IfSome, IsTrue};
ghost use Rattle.vw_cell.specs.Sides.{is_side};

use std::marker::Model;

/// The side of a world: a power of two from 4 to 4,096. Contracts see its exponent, from 2 to 12.
#[derive(Clone, Copy, Debug, PartialEq, Eq)]
pub struct Side {
    exponent: u8,
}

impl Model for Side {
    ghost Value = { ℕ };

    ghost view = { λ s. s.exponent };

    ghost invariant = { λ s. (2 ≤ s.exponent) × (s.exponent ≤ 12) };

    ghost inverse = { λ n. record { exponent = n } };
}

impl Side {
    /// The side of this many cells. `None` where no world has that side.
    pub fn new(side: u32) -> Option<Side>
        ensures exactly { IsSome result ↔ IsTrue (is_side side) }
        ensures value { IfSome result (λ s. 2 ^ s ≡ side) }
    {
        let exponent = match side {
            4 => 2,
            8 => 3,
            16 => 4,
            32 => 5,
            64 => 6,
            128 => 7,
            256 => 8,
            512 => 9,
            1024 => 10,
            2048 => 11,
            4096 => 12,
            _ => return None,
        };
        Some(Side { exponent })
    }

    /// The exponent of the power of two, from 2 to 12.
    pub fn exponent(&self) -> u8
        ensures value { result ≡ self.now }
        ensures bounds { (2 ≤ result) × (result ≤ 12) }
    {
        self.exponent
    }

    /// The side in cells, from 4 to 4,096.
    #[tactic(auto, using(crate::proofs::Powers::side_bounds))]
    pub fn cells(&self) -> u32
        ensures value { result ≡ 2 ^ self.now }
        ensures bounds { (4 ≤ result) × (result ≤ 4096) }
    {
        1 << self.exponent
    }

    /// The level of the block that is the whole world: the exponent less 2, from 0 to 10.
    pub fn root_level(&self) -> u8
        ensures value { result ≡ self.now - 2 }
        ensures bounds { (2 ≤ self.now) × (self.now ≤ 12) }
    {
        self.exponent - 2
    }
}
