ghost use Rattle.std.specs.Prelude.{◌≡◌, ◌↔◌, IsSome, IfSome, IsTrue};
ghost use Rattle.history_model.specs.Ways.{Heading, IsHeading, IsStep, heading_of};

use std::marker::Model;

/// The steps of a ray on each axis: each from -1,024 to 1,024, and not all of them 0.
#[derive(Clone, Copy, Debug, PartialEq, Eq)]
pub struct Way {
    dx: i16,
    dy: i16,
    dz: i16,
}

impl Model for Way {
    ghost use Rattle.history_model.specs.Ways.{Heading, IsHeading};

    ghost Value = { Heading };

    ghost view = { λ w. record { dx = w.dx; dy = w.dy; dz = w.dz } };

    ghost invariant = { λ w. IsHeading (record { dx = w.dx; dy = w.dy; dz = w.dz }) };

    ghost inverse = { λ h. record { dx = h.dx; dy = h.dy; dz = h.dz } };
}

/// The longest step.
const STEP: i16 = 1024;

impl Way {
    /// The way with these steps, each at most 1,024 cells to either side. `None` also where all are
    /// 0.
    pub fn new(dx: i16, dy: i16, dz: i16) -> Option<Way>
        ensures exactly { IsSome result ↔ IsHeading (heading_of dx dy dz) }
        ensures value { IfSome result (λ way. way ≡ heading_of dx dy dz) }
    {
        if !is_step(dx) || !is_step(dy) || !is_step(dz) {
            return None;
        }
        if dx == 0 && dy == 0 && dz == 0 {
            return None;
        }
        Some(Way { dx, dy, dz })
    }

    /// The step along x.
    pub fn dx(&self) -> i16
        ensures value { result ≡ self.now.dx }
        ensures way { IsHeading self.now }
    {
        self.dx
    }

    /// The step along y.
    pub fn dy(&self) -> i16
        ensures value { result ≡ self.now.dy }
        ensures way { IsHeading self.now }
    {
        self.dy
    }

    /// The step along z.
    pub fn dz(&self) -> i16
        ensures value { result ≡ self.now.dz }
        ensures way { IsHeading self.now }
    {
        self.dz
    }
}

fn is_step(d: i16) -> bool
    ensures { IsTrue result ↔ IsStep d }
{
    -STEP <= d && d <= STEP
}
