/// One of the six sides of a cell: towards lower or towards higher places on an axis.
#[derive(Clone, Copy, Debug, PartialEq, Eq)]
pub enum Direction {
    LowX,
    HighX,
    LowY,
    HighY,
    LowZ,
    HighZ,
}
