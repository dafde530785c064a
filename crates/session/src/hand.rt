//! A session that is lent as a store of nodes.
ghost use Rattle.std.specs.Prelude.{◌≡◌, None};
ghost use Rattle.node_table.specs.TableStates.{BelongsTo};

use node_table::{NodeTable, Pass};

/// A borrowed session as a store of nodes, with what it waits with. It can be read whatever that
/// is, and edited where it can wait.
///
/// A hand is let go, and the session is then as it was left.
#[derive(Drop)]
pub struct Hand<'a, R> {
    pub(crate) rt: &'a R,
    pub(crate) table: &'a NodeTable,
    pub(crate) session: &'a mut Pass,
    pub ghost of: { BelongsTo table.now session.now },
    pub ghost idle: { session.now.view.turn ≡ None },
}
