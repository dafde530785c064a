// The greatest full block, which a walk keeps aside, and the names of those in it.
ghost use Rattle.std.specs.Prelude.{◌≡◌, None};

use node_words::{Name, Share, end};

/// A share of the greatest full block that a walk made, and by level the names of the full blocks
/// that stand first in it. It must be given back.
pub(crate) struct FullBlocks {
    pub(crate) share: Option<Share>,
    pub(crate) names: [Option<Name>; 11],
}

impl FullBlocks {
    // These from here on, where there were none.
    pub(crate) fn become_these(&mut self, these: FullBlocks)
        requires { self.old.share ≡ None }
        ensures { self.new ≡ these }
    {
        let FullBlocks { share, names: _ } = std::mem::replace(self, these);
        end(share);
    }
}
