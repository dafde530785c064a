/// One entry of a model's list: a place below the model's size, and a colour index, 0 for no
/// colour.
#[derive(Clone, Copy, Debug, PartialEq, Eq)]
pub struct Voxel {
    pub x: u8,
    pub y: u8,
    pub z: u8,
    pub colour: u8,
}
