use script::SaveName;
use vw_cell::Boxed;

/// What an accepted save makes a file of: the box of this version, under this name.
#[derive(Clone, Copy, Debug, PartialEq, Eq)]
pub struct SavedBox {
    pub name: SaveName,
    pub version: u32,
    pub part: Boxed,
}
