ghost use Rattle.std.specs.Prelude.{◌≡◌, ◌++◌, OnOk};
ghost use Rattle.std.specs.List.{flat_map};
ghost use Rattle.dag_file.specs.Writes.{word_bytes, leaf_bytes, numbers_bytes, header_bytes};

use vw_cell::Memory;

/// A number of four bytes, the lowest first.
pub(crate) fn put_number(n: u32, into: &mut Vec<u8>) -> Result<(), Memory>
    ensures { OnOk result (into.new.items ≡ into.old.items ++ word_bytes n) }
{
    into.extend_from_slice(&n.to_le_bytes())?;
    Ok(())
}

/// Numbers one after the other.
pub(crate) fn put_numbers(numbers: &[u32], into: &mut Vec<u8>) -> Result<(), Memory>
    ensures { OnOk result (into.new.items ≡ into.old.items ++ numbers_bytes numbers.now) }
{
    for n in numbers {
        put_number(*n, into)?;
    }
    Ok(())
}

/// The entries of level 0.
pub(crate) fn put_leaves(leaves: &[u64], into: &mut Vec<u8>) -> Result<(), Memory>
    ensures { OnOk result (into.new.items ≡ into.old.items ++ flat_map leaf_bytes leaves.now) }
{
    for leaf in leaves {
        into.extend_from_slice(&leaf.to_le_bytes())?;
    }
    Ok(())
}

/// The entries of a level above.
pub(crate) fn put_nodes(nodes: &[[u32; 8]], into: &mut Vec<u8>) -> Result<(), Memory>
    ensures { OnOk result (into.new.items ≡ into.old.items ++ flat_map numbers_bytes nodes.now) }
{
    for node in nodes {
        put_numbers(node, into)?;
    }
    Ok(())
}

/// Versions, each by its number and the word of its root.
pub(crate) fn put_pairs(pairs: &[[u32; 2]], into: &mut Vec<u8>) -> Result<(), Memory>
    ensures { OnOk result (into.new.items ≡ into.old.items ++ flat_map numbers_bytes pairs.now) }
{
    for pair in pairs {
        put_numbers(pair, into)?;
    }
    Ok(())
}

/// The mark, the 1, a side, a number of versions, and the numbers of entries.
pub(crate) fn put_header(
    side: u32,
    versions: u32,
    counts: &[u32],
    into: &mut Vec<u8>,
) -> Result<(), Memory>
    ensures { OnOk result
        (into.new.items ≡ into.old.items ++ header_bytes side versions counts.now) }
{
    into.extend_from_slice(b"VDAG")?;
    put_numbers(&[1, side, versions], into)?;
    put_numbers(counts, into)?;
    Ok(())
}
