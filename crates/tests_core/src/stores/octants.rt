//! What stands in all octants of a block, by one look.
ghost use Rattle.std.specs.Prelude.{◌≡◌, option_copied};
ghost use Rattle.node_words.specs.descent.Roots.{HoldsRoot};
ghost use Rattle.dag_file.specs.Trees.{opened_state};

use dag_file::DagView;
use node_words::{Name, Share, name_of, octant_bits, octant_names};
use std::alloc::Global;

/// The names in the octants of a root, and the bits in those of the block in octant 2.
#[derive(Clone, Copy, Debug, PartialEq, Eq)]
pub struct Octants {
    pub names: [Option<Name>; 8],
    pub bits: [u64; 8],
}

fn octants_below(view: &mut DagView<'_>, root: Option<&Share>) -> Octants
    requires root { HoldsRoot (opened_state view.old).held 4 (option_copied root) }
{
    let names = octant_names(view, 2, name_of(root));
    let bits = octant_bits(view, names[2]);
    Octants { names, bits }
}

/// Those of a version of a file, where it has a world of side 16.
pub fn octants_of(alloc: Global, bytes: &[u8], version: u32) -> Option<Octants> {
    match DagView::read(alloc, bytes) {
        Ok(view) => octants_in(view, version),
        Err(_) => None,
    }
}

fn octants_in(view: DagView<'_>, version: u32) -> Option<Octants> {
    let mut view = view;
    if view.side().root_level() != 2 {
        return None;
    }
    match view.root(version) {
        None => None,
        Some(root) => {
            let octants = octants_below(&mut view, root.as_ref());
            if let Some(share) = root {
                view.drop_root(share);
            }
            Some(octants)
        }
    }
}
