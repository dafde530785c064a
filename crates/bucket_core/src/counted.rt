/// What a slot has: a key, and how many references there are to it.
#[derive(Debug, Drop)]
pub struct Entry<K> {
    pub key: K,
    pub book: u64,
}

/// All slots of the bucket have entries. The key that found no room is handed back.
#[derive(Debug, Drop)]
pub struct BucketFull<K> {
    pub key: K,
}

/// What is left of an entry after one reference less: its book, or, after the last one, its key.
#[derive(Debug, Drop)]
pub enum Lowered<K> {
    Left(u64),
    Last(K),
}
