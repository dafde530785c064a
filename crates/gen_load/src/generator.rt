ghost use Rattle.std.specs.Prelude.{◌≡◌, ◌<◌, ◌≤◌, ℕ};
ghost use Rattle.gen_load.specs.Draws.{stepped, draw_from};

use std::marker::Model;

/// The numbers of a load, one after another. Contracts see the state.
#[derive(Drop)]
pub(crate) struct Generator {
    state: u64,
}

impl Model for Generator {
    ghost Value = { ℕ };

    ghost view = { λ g. g.state };
}

impl Generator {
    /// The numbers of the load of this number.
    pub(crate) fn new(n: u32) -> Generator
        ensures { result ≡ n }
    {
        Generator {
            state: u64::from(n),
        }
    }

    /// The next draw, as a number below `m`.
    #[tactic(auto, using(crate::proofs::Steps::one_step), unfolding(crate::specs::Draws::stepped))]
    pub(crate) fn below(&mut self, m: u16) -> u16
        requires { 1 ≤ m }
        ensures value { result ≡ draw_from self.old m }
        ensures bound { result < m }
        ensures state { self.new ≡ stepped self.old }
    {
        self.state = self
            .state
            .wrapping_mul(6_364_136_223_846_793_005)
            .wrapping_add(1_442_695_040_888_963_407);
        ((self.state >> 33) % u64::from(m)) as u16
    }
}
