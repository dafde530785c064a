ghost use Rattle.std.specs.Prelude.{◌≡◌, ◌<◌, ◌≤◌, ◌+◌, ◌*◌, ◌/◌, ℕ, Some, None};
ghost use Rattle.vw_cell.specs.Places.{block_side};
ghost use Rattle.node_words.specs.shapes.Shape.{Leaf as leaf_shape, has, octant_number};
ghost use Rattle.node_words.specs.shapes.Tree.{shape_of};
ghost use Rattle.core_laws.specs.places.Names.{key_bits, key_child};
ghost use Rattle.core_laws.specs.States.{tree_at};
ghost use Rattle.world_core.specs.Reads.{keys_in};

use crate::entries::Entries;
use node_words::{Key, Name};
use vw_cell::Cell;

impl Entries {
    /// The key of the name's entry, and that of a leaf with no set cell where there is none.
    pub fn key_or_empty(&self, n: Name) -> Key
        ensures { result ≡ keys_in self.now n }
    {
        match self.key(n) {
            Some(key) => key,
            None => Key::Leaf(0),
        }
    }

    /// Whether a cell is set of the block of this level and side that stands at a name; its place
    /// counts from the block's corner.
    pub fn is_set(&self, side: u16, level: u8, name: Option<Name>, q: Cell) -> bool
        requires { side ≡ block_side level }
        ensures { result ≡ has level
            (shape_of (tree_at (keys_in self.now) level name)) q.x q.y q.z }
    {
        let n = match name {
            None => return false,
            Some(n) => n,
        };
        let key = self.key_or_empty(n);
        if level == 0 {
            return is_bit_set(bits_in(&key), q);
        }
        let half = side / 2;
        let octant = octant_with(half, q);
        if octant > 7 {
            return false;
        }
        let inner = Cell {
            x: q.x % half,
            y: q.y % half,
            z: q.z % half,
        };
        self.is_set(half, level - 1, child_in(&key, octant), inner)
    }
}

/// The bits of a leaf's key, none of a node's.
pub fn bits_in(key: &Key) -> u64
    ensures { result ≡ key_bits key.now }
{
    match key {
        Key::Leaf(bits) => *bits,
        Key::Node(_) => 0,
    }
}

/// The child of a node's key in an octant.
pub fn child_in(key: &Key, octant: u32) -> Option<Name>
    requires { octant < 8 }
    ensures { result ≡ key_child key.now octant }
{
    match key {
        Key::Leaf(_) => None,
        Key::Node(children) => children[octant as usize],
    }
}

// The octant that has the cell of a block, and a number over 7 where the cell lies outside.
fn octant_with(half: u16, q: Cell) -> u32
    requires { 1 ≤ half }
    ensures { result ≡ octant_number half q.x q.y q.z }
{
    let x = u32::from(q.x / half);
    let y = u32::from(q.y / half);
    let z = u32::from(q.z / half);
    x + 2 * y + 4 * z
}

// Whether the cell of a leaf's block is set.
fn is_bit_set(bits: u64, q: Cell) -> bool
    ensures { result ≡ has 0 (leaf_shape bits) q.x q.y q.z }
{
    let number = u32::from(q.x) + 4 * u32::from(q.y) + 16 * u32::from(q.z);
    if number > 63 {
        return false;
    }
    (bits >> number) & 1 == 1
}
