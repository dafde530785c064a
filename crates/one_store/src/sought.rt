use crate::entries::KeyWords;

/// A key that is sought: its level, its bucket there and its words.
#[derive(Clone, Copy)]
pub(crate) struct SoughtKey {
    pub(crate) level: u8,
    pub(crate) bucket: u16,
    pub(crate) words: KeyWords,
}
