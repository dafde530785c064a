/// Where a node stands in a store: its level, the bucket of its content and its slot there. With
/// the bucket first it has four bytes and no gap.
#[derive(Clone, Copy, Debug, PartialEq, Eq)]
pub struct Name {
    pub bucket: u16,
    pub level: u8,
    pub slot: u8,
}
