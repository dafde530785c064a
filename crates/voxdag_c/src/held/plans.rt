/// What a world is, as C gets it: its side in cells, how many slots a bucket of its store has, how
/// many of its last versions are kept, 0 for all, and 1 where cells have tints.
#[repr(C)]
#[derive(Clone, Copy)]
pub struct CPlan {
    pub side: u32,
    pub cap: u32,
    pub keep: u32,
    pub tints: u32,
}
