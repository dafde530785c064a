use bucket_core::{Bucket, Lowered};
use std::test::Fail;

// What is done to a bucket of two slots, and what comes of it.
#[derive(Clone, Copy)]
enum Call {
    Find(u64, Option<u16>),
    Add(u64, Option<u16>),
    Raise(u16),
    Lower(u16, Option<u64>),
    Book(u16, u64),
}

// Adds the key where the bucket hasn't it; whether that went into this slot, or found no room.
fn adds(bucket: &mut Bucket<u64>, key: u64, slot: Option<u16>) -> bool {
    if bucket.find(&key).is_some() {
        return false;
    }
    match bucket.add(key) {
        Ok(at) => slot == Some(at),
        Err(full) => slot.is_none() && full.key == key,
    }
}

fn raises(bucket: &mut Bucket<u64>, slot: u16) -> bool {
    if slot >= bucket.cap() || bucket.entry(slot).is_none() || bucket.book(slot) > 1000 {
        return false;
    }
    bucket.raise(slot);
    true
}

// Whether one reference less leaves this book, or frees the slot where none is said.
fn lowers(bucket: &mut Bucket<u64>, slot: u16, left: Option<u64>) -> bool {
    if slot >= bucket.cap() || bucket.entry(slot).is_none() {
        return false;
    }
    match bucket.lower(slot) {
        Lowered::Left(book) => left == Some(book),
        Lowered::Last(_) => left.is_none(),
    }
}

fn does(bucket: &mut Bucket<u64>, call: &Call) -> bool {
    match call {
        Call::Find(key, slot) => bucket.find(key) == *slot,
        Call::Add(key, slot) => adds(bucket, *key, *slot),
        Call::Raise(slot) => raises(bucket, *slot),
        Call::Lower(slot, left) => lowers(bucket, *slot, *left),
        Call::Book(slot, book) => *slot < bucket.cap() && bucket.book(*slot) == *book,
    }
}

/// Calls of a bucket of two slots, one after another.
const CALLS: &[Call] = &[
    Call::Find(7, None),
    Call::Add(7, Some(0)),
    Call::Add(9, Some(1)),
    Call::Add(5, None),
    Call::Find(9, Some(1)),
    Call::Raise(0),
    Call::Book(0, 2),
    Call::Lower(1, None),
    Call::Book(1, 0),
    Call::Find(9, None),
    Call::Lower(0, Some(1)),
    Call::Add(5, Some(1)),
    Call::Lower(0, None),
    Call::Add(9, Some(0)),
    Call::Find(5, Some(1)),
];

#[test]
fn a_bucket_of_two_slots_is_exact(rt: HostRuntime) -> Result<(), Fail> {
    let mut bucket = Bucket::new(rt.alloc(), 2)?;
    for (index, call) in CALLS.iter().enumerate() {
        assert!(rt; does(&mut bucket, call), "call {index}");
    }
    Ok(())
}
