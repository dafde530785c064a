ghost use Rattle.std.specs.Prelude.{◌≡◌, ◌≤◌, ◌<◌, ◌+◌, ◌*◌, ℕ, length, IfOk, OnOk, vec_len};
ghost use Rattle.std.specs.List.{Contains};
ghost use Rattle.flood.specs.Words.{IsRegionOf, IsBeyond, ReachesWord, ReachesBeyond, Visits, Settles, room};

use crate::spreading::spread;
use std::alloc::Global;
use vw_cell::Memory;

/// The bits of `clear` that ways through such bits join with a start: none where the start itself
/// isn't set. Bit x + 256 y + 65536 z stands for the place (x, y, z). A way goes from each place to
/// one that differs by 1 on one axis.
pub(crate) fn region_of(alloc: Global, clear: &[u64], start: usize) -> Result<Vec<u64>, Memory>
    requires size { length clear.now ≤ 262144 }
    requires start { start < 64 * length clear.now }
    ensures size { IfOk result (λ r. length r.items ≡ length clear.now) }
    ensures region { IfOk result (λ r. IsRegionOf clear.now start r.items) }
{
    let w = start / 64;
    let mut reached = vec![in alloc; 0; clear.len()]?;
    reached[w] = clear[w] & 1 << (start % 64);
    let mut stack = Vec::new(alloc);
    stack.push(w as u32)?;
    settle(clear, &mut reached, &mut stack)?;
    Ok(reached)
}

// Visits words until none waits.
fn settle(clear: &[u64], reached: &mut [u64], stack: &mut Vec<u32>) -> Result<(), Memory>
    requires size { length clear.now ≤ 262144 }
    requires same { length reached.old ≡ length clear.now }
    requires inside { (u : ℕ) → Contains stack.old.items u → u < length clear.now }
    ensures settled { OnOk result
        (Settles clear.now reached.old reached.new stack.old.items) }
{
    while let Some(w) = stack.pop() {
        visit(clear, reached, stack, w as usize)?;
    }
    Ok(())
}

// Reaches what is beside the bits of a word. The six ways are written out, so that each is compiled
// for itself.
fn visit(clear: &[u64], reached: &mut [u64], stack: &mut Vec<u32>, w: usize) -> Result<(), Memory>
    requires size { length clear.now ≤ 262144 }
    requires same { length reached.old ≡ length clear.now }
    requires w { w < length clear.now }
    ensures visited { OnOk result
        (Visits clear.now w reached.old reached.new stack.old.items stack.new.items) }
{
    let bits = spread(reached[w], clear[w]);
    reached[w] = bits;
    reach_beyond(clear, reached, stack, w, 0, bits)?;
    reach_beyond(clear, reached, stack, w, 1, bits)?;
    reach_beyond(clear, reached, stack, w, 2, bits)?;
    reach_beyond(clear, reached, stack, w, 3, bits)?;
    reach_beyond(clear, reached, stack, w, 4, bits)?;
    reach_beyond(clear, reached, stack, w, 5, bits)?;
    Ok(())
}

// Reaches what is beside bits of a word in the k-th of six ways.
#[inline(always)]
fn reach_beyond(
    clear: &[u64],
    reached: &mut [u64],
    stack: &mut Vec<u32>,
    w: usize,
    k: u8,
    bits: u64,
) -> Result<(), Memory>
    requires size { length clear.now ≤ 262144 }
    requires same { length reached.old ≡ length clear.now }
    requires w { w < length clear.now }
    requires k { k < 6 }
    ensures reached { OnOk result
        (ReachesBeyond clear.now w k bits reached.old reached.new stack.old.items stack.new.items) }
{
    let there = beyond(clear.len(), w, k, bits);
    reach(clear, reached, stack, there)
}

// Bits of a word.
#[derive(Clone, Copy)]
struct Bits {
    word: usize,
    bits: u64,
}

// The bits that are beside bits of a word, in the k-th of six ways, but for those of the word
// itself.
#[inline(always)]
fn beyond(size: usize, w: usize, k: u8, bits: u64) -> Bits
    requires size { size ≤ 262144 }
    requires w { w < size }
    requires k { k < 6 }
    ensures { IsBeyond size k w bits result.word result.bits }
{
    match k {
        0 if w % 4 < 3 && w + 1 < size => Bits {
            word: w + 1,
            bits: bits >> 63,
        },
        1 if w % 4 > 0 => Bits {
            word: w - 1,
            bits: bits << 63,
        },
        2 if w / 4 % 256 < 255 && w + 4 < size => Bits { word: w + 4, bits },
        3 if w / 4 % 256 > 0 => Bits { word: w - 4, bits },
        4 if w + 1024 < size => Bits {
            word: w + 1024,
            bits,
        },
        5 if w >= 1024 => Bits {
            word: w - 1024,
            bits,
        },
        _ => Bits { word: w, bits: 0 },
    }
}

// Puts bits where they are clear. The word waits if that changed it.
#[inline(always)]
fn reach(
    clear: &[u64],
    reached: &mut [u64],
    stack: &mut Vec<u32>,
    there: Bits,
) -> Result<(), Memory>
    requires size { length clear.now ≤ 262144 }
    requires same { length reached.old ≡ length clear.now }
    requires word { there.word < length clear.now }
    ensures reached { OnOk result
        (ReachesWord clear.now there.word there.bits reached.old reached.new stack.old.items
        stack.new.items) }
{
    let v = there.word;
    let was = reached[v];
    let bits = was | there.bits & clear[v];
    if bits == was {
        return Ok(());
    }
    reached[v] = bits;
    stack.push(v as u32)?;
    Ok(())
}
