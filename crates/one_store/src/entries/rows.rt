ghost use Rattle.std.specs.Prelude.{◌≡◌, ◌<◌, ◌≤◌, ◌*◌, ◌+◌, ◌-◌, ℕ, [], IfOk, length, slice_index, slice_index_or, vec_capacity};
ghost use Rattle.one_store.specs.entries.Rows.{PutsItem, PutsIn, items_of, rooms_of, AreEmptyRows};

use std::alloc::{AllocError, Global};

/// The item at a place of a row, and the empty one behind its end.
pub(crate) fn item<T: Copy>(row: &[T], i: usize, empty: T) -> T
    ensures { result ≡ slice_index_or row.now i empty }
{
    match row.get(i) {
        Some(item) => *item,
        None => empty,
    }
}

/// An item comes to a place of a row, which grows up to there by empty ones within its room.
pub(crate) fn put<T: Copy>(row: &mut Vec<T>, i: usize, item: T, empty: T)
    requires { i < vec_capacity row.old }
    ensures puts { PutsItem empty row.old.items i item row.new.items }
    ensures room { vec_capacity row.new ≡ vec_capacity row.old }
{
    reach(row, i, empty);
    row[i] = item;
}

/// The row grows by empty items up to this place, within its room.
pub(crate) fn reach<T: Copy>(row: &mut Vec<T>, i: usize, empty: T)
    requires { i < vec_capacity row.old }
    ensures same { (j : ℕ) → slice_index_or row.new.items j empty
        ≡ slice_index_or row.old.items j empty }
    ensures reaches { i < length row.new.items }
    ensures room { vec_capacity row.new ≡ vec_capacity row.old }
{
    while row.len() <= i {
        row.push_reserved(empty);
    }
}

/// One of several rows.
pub(crate) fn row<T>(rows: &[Vec<T>], k: usize) -> &[T]
    requires { k < length rows.now }
    ensures { result.now ≡ slice_index_or (items_of rows.now) k [] }
{
    rows[k].as_slice()
}

/// An item comes to a place of one of several rows, which grows up to there within its room.
pub(crate) fn put_in<T: Copy>(rows: &mut Vec<Vec<T>>, k: usize, i: usize, item: T, empty: T)
    requires row { k < length rows.old.items }
    requires room { i < slice_index (rooms_of rows.old.items) k }
    ensures puts { PutsIn empty (items_of rows.old.items) k i item (items_of rows.new.items) }
    ensures rooms { rooms_of rows.new.items ≡ rooms_of rows.old.items }
{
    put(&mut rows[k], i, item, empty);
}

/// Empty rows for the levels from the first one on, each with room for all slots of its level.
pub(crate) fn empty_rows<T: Copy>(
    alloc: Global,
    buckets: &[u16; 11],
    first: usize,
    levels: usize,
    cap: usize,
) -> Result<Vec<Vec<T>>, AllocError>
    requires levels { levels ≤ 11 }
    requires first { first ≤ levels }
    requires cap { cap ≤ 256 }
    ensures { IfOk result (λ rows. AreEmptyRows buckets.now first (levels - first) cap rows.items) }
{
    let mut rows = Vec::with_capacity(alloc, levels - first)?;
    for level in first..levels {
        rows.push(Vec::with_capacity(alloc, usize::from(buckets[level]) * cap)?)?;
    }
    Ok(rows)
}
