ghost use Rattle.std.specs.Prelude.{◌≡◌, ℕ, ◌+◌, ◌*◌, ◌^◌, ◌<◌, ◌≤◌, MatchOption};
ghost use Rattle.vw_cell.specs.Places.{IsInWorld, IsInBox};
ghost use Rattle.vw_cell.specs.declared.cells.Cell.{Cell};
ghost use Rattle.ray_walk.specs.Courses.{IsTrackIn, IsTrack, IsCourse, IsCourseIn, StaysUntil, IsOut, Ends, BeginsBelow, InBoxUntil, IsSmallAt, HasLeft};

use vw_cell::{Boxed, Cell};

/// How a ray goes on one axis: from `start`, by `ahead` or by `behind` at each instant; a cell is
/// `unit` wide.
#[derive(Clone, Copy)]
pub(crate) struct Track {
    pub(crate) unit: u64,
    pub(crate) start: u64,
    pub(crate) ahead: u64,
    pub(crate) behind: u64,
}

/// A ray on its three axes.
#[derive(Clone, Copy)]
pub(crate) struct Course {
    pub(crate) x: Track,
    pub(crate) y: Track,
    pub(crate) z: Track,
}

// After this instant each ray that moves has left the world.
pub(crate) const FAR: u64 = 1 << 45;

impl Track {
    // The first instant at which the track isn't in the stretch of cells from `low` on and below
    // `high`, and one after the ray has left the world where the track stands still.
    #[tactic(auto, using(crate::proofs::TrackLaws::ahead_stays, crate::proofs::TrackLaws::behind_stays))]
    fn leaves(&self, low: u16, high: u16) -> u64
        requires track { IsTrack self.now }
        requires high { high ≤ 4096 }
        ensures within { (k c : ℕ) → IsTrackIn self.now k c → low ≤ c → c < high
            → StaysUntil self.now low high k result }
        ensures far { result ≤ 2 ^ 45 }
        ensures soon { 1 ≤ self.now.ahead + self.now.behind → result < 2 ^ 45 }
        ensures small { (result * self.now.ahead < 2 ^ 45) × (result * self.now.behind < 2 ^ 45) }
    {
        if self.ahead > 0 {
            let way = (self.unit * u64::from(high)).saturating_sub(self.start);
            (way + self.ahead - 1) / self.ahead
        } else if self.behind > 0 {
            let way = self.start.saturating_sub(self.unit * u64::from(low));
            way / self.behind + 1
        } else {
            FAR
        }
    }

    // The cell at the instant, if it is below the side.
    #[tactic(auto, using(crate::proofs::TrackLaws::past_side))]
    fn place(&self, k: u64, side: u16) -> Option<u16>
        requires track { IsTrack self.now }
        requires begins { self.now.start < self.now.unit * side }
        requires small { (k * self.now.ahead < 2 ^ 45) × (k * self.now.behind < 2 ^ 45) }
        ensures { MatchOption result (IsOut self.now side k)
            (λ c. IsTrackIn self.now k c × (c < side)) }
    {
        let ahead = self.start + k * self.ahead;
        let behind = k * self.behind;
        if ahead < behind {
            return None;
        }
        let place = (ahead - behind) / self.unit;
        if place < u64::from(side) {
            Some(place as u16)
        } else {
            None
        }
    }
}

impl Course {
    /// The first instant at which the ray isn't in the box.
    #[tactic(auto, using(crate::proofs::TrackLaws::in_box_until))]
    pub(crate) fn leaves(&self, b: Boxed) -> u64
        requires course { IsCourse self.now }
        requires x { Ends b.at.x b.size.x }
        requires y { Ends b.at.y b.size.y }
        requires z { Ends b.at.z b.size.z }
        ensures within { (k : ℕ) (c : Cell) → IsCourseIn self.now k c → IsInBox b c → k < 2 ^ 45
            → InBoxUntil self.now b k result }
        ensures far { result < 2 ^ 45 }
        ensures small { IsSmallAt self.now result }
    {
        let x = self.x.leaves(b.at.x, b.at.x + b.size.x);
        let y = self.y.leaves(b.at.y, b.at.y + b.size.y);
        let z = self.z.leaves(b.at.z, b.at.z + b.size.z);
        x.min(y).min(z)
    }

    /// The cell at the instant, if it is in the world of this side.
    pub(crate) fn place(&self, k: u64, side: u16) -> Option<Cell>
        requires course { IsCourse self.now }
        requires begins { BeginsBelow self.now side }
        requires small { IsSmallAt self.now k }
        ensures { MatchOption result (HasLeft self.now side k)
            (λ c. IsCourseIn self.now k c × IsInWorld side c) }
    {
        let x = self.x.place(k, side)?;
        let y = self.y.place(k, side)?;
        let z = self.z.place(k, side)?;
        Some(Cell { x, y, z })
    }
}
