use crate::ways::Way;
use vw_cell::{Boxed, Cell};

/// What is asked of one version of the world.
#[derive(Clone, Copy, Debug, PartialEq, Eq)]
pub enum Question {
    /// Whether the cell is set.
    Get(Cell),
    /// The tint of the cell, 0 where it isn't set.
    Colour(Cell),
    /// The number of set cells of the box.
    Count(Boxed),
    /// The least box that has all set cells.
    Bounds,
    /// The number of pairs of a set cell of the box and one of its six neighbours that isn't set.
    Faces(Boxed),
    /// The first set cell on the ray from the centre of the cell.
    Ray(Cell, Way),
}
