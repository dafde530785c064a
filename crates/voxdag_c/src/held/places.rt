ghost use Rattle.std.specs.Prelude.{◌≡◌, ◌↔◌, ◌≤◌, ◌^◌, IsSome, IfSome};
ghost use Rattle.vw_cell.specs.Places.{FitsAt, IsInWorld};
ghost use Rattle.voxdag_c.specs.held.Places.{cell_of_c_place, box_of, ball_of, FitsSixteenBits};

use vw_cell::{Ball, Boxed, Cell, Side};

/// A place, or a size, as C hands it in: any three numbers.
#[repr(C)]
#[derive(Clone, Copy)]
pub struct CPlace {
    pub x: u32,
    pub y: u32,
    pub z: u32,
}

/// A box as C hands it in: its least corner and its size.
#[repr(C)]
#[derive(Clone, Copy)]
pub struct CBox {
    pub at: CPlace,
    pub size: CPlace,
}

impl CPlace {
    pub(crate) fn of(c: Cell) -> CPlace
        ensures { cell_of_c_place result ≡ c }
    {
        CPlace {
            x: u32::from(c.x),
            y: u32::from(c.y),
            z: u32::from(c.z),
        }
    }

    // As a cell, where its numbers are those of one.
    fn cell(self) -> Option<Cell>
        ensures exactly { IsSome result ↔ FitsSixteenBits (cell_of_c_place self) }
        ensures value { IfSome result (λ c. c ≡ cell_of_c_place self) }
    {
        if self.x <= 65_535 && self.y <= 65_535 && self.z <= 65_535 {
            Some(Cell {
                x: self.x as u16,
                y: self.y as u16,
                z: self.z as u16,
            })
        } else {
            None
        }
    }

    /// As a cell of the world of this side.
    #[tactic(auto, using(crate::proofs::OfHeld::Fitting::world_is_small))]
    pub(crate) fn cell_in(self, side: Side) -> Option<Cell>
        ensures exactly { IsSome result ↔ IsInWorld (2 ^ side) (cell_of_c_place self) }
        ensures value { IfSome result (λ c. c ≡ cell_of_c_place self) }
    {
        let _cells = side.cells();
        match self.cell() {
            Some(c) => { if c.is_in_world(side) { Some(c) } else { None } }
            None => None,
        }
    }

    /// As the centre of a ball of this radius in the world of this side.
    pub(crate) fn ball_in(self, radius: u32, side: Side) -> Option<Ball>
        ensures exactly { IsSome result
            ↔ (IsInWorld (2 ^ side) (cell_of_c_place self) × (radius ≤ 4095)) }
        ensures value { IfSome result (λ b. b ≡ ball_of self radius) }
    {
        match self.cell_in(side) {
            Some(centre) => {
                if radius <= 4_095 {
                    let radius = radius as u16;
                    Some(Ball { centre, radius })
                } else {
                    None
                }
            }
            None => None,
        }
    }
}

impl CBox {
    pub(crate) fn of(b: Boxed) -> CBox
        ensures { box_of result ≡ b }
    {
        CBox {
            at: CPlace::of(b.at),
            size: CPlace::of(b.size),
        }
    }

    /// As a box of the world of this side.
    #[tactic(auto, using(crate::proofs::OfHeld::Fitting::box_is_small))]
    pub(crate) fn box_in(self, side: Side) -> Option<Boxed>
        ensures exactly { IsSome result ↔ FitsAt (cell_of_c_place self.at)
            (cell_of_c_place self.size)
            (2 ^ side) }
        ensures value { IfSome result (λ b. b ≡ box_of self) }
    {
        let _cells = side.cells();
        match self.at.cell() {
            Some(at) => match self.size.cell() {
                Some(size) => Boxed::new(at, size, side),
                None => None,
            },
            None => None,
        }
    }
}
