//! Roots of a world of side 4 of which all cells are set, or none.
ghost use Rattle.std.specs.Prelude.{◌≡◌, ◌≤◌, Some, All, IfOk};
ghost use Rattle.node_words.specs.shapes.Weights.{number_of_trees};
ghost use Rattle.node_words.specs.declared.shapes.names.Name.{Name};
ghost use Rattle.node_words.specs.Held.{HoldsName};
ghost use Rattle.edit_walk.specs.blocks.Blocks.{ReturnsShare};
ghost use Rattle.node_table.specs.Closing.{IsSpare};
ghost use Rattle.node_table.specs.LogTurns.{HasNoTurn};
ghost use Rattle.node_table.specs.TableStates.{BelongsTo};
ghost use Rattle.tests_versions.specs.Holding.{HoldsUniform};
ghost use Rattle.tests_versions.specs.Uniform.{uniform_act};

use history_model::Act;
use node_table::{Closed, NodeTable, Pass, TableCloseRefused};
use node_words::{Name, Plan, Share, Steps};
use std::alloc::Global;
use std::sync::Wait;
use std::sync::ledger::Ledger;
use std::test::Fail;
use vox_read::Models;
use vw_cell::{Boxed, Cell};

/// The act behind which this is the root.
pub fn act_behind(root: Option<Name>) -> Act
    ensures { result ≡ uniform_act root }
{
    let every = Boxed {
        at: Cell { x: 0, y: 0, z: 0 },
        size: Cell { x: 4, y: 4, z: 4 },
    };
    match root {
        None => Act::Erase(every),
        Some(_) => Act::Fill(every),
    }
}

/// The name of what may be a share.
pub fn name_of(root: &Option<Share>) -> Option<Name>
    ensures { result ≡ root.now }
{
    match root {
        None => None,
        Some(share) => Some(share.name()),
    }
}

/// A share of the root of the world of which all cells are set, or none. It is none, too, where the
/// leaf has no room.
pub fn uniform_root<R: Wait, L: Ledger>(
    rt: &R,
    table: &NodeTable,
    pass: &mut Pass,
    full: bool,
    steps: &mut Steps<L>,
) -> Option<Share>
    requires spare { IsSpare table.now pass.old }
    requires side { table.now.plan.side ≡ 2 }
    ensures { HoldsUniform table.now pass.new result }
{
    if !full {
        return None;
    }
    match intern::leaf(rt, table, pass, u64::MAX, steps) {
        Ok(share) => Some(share),
        Err(_) => None,
    }
}

/// Gives back what may be a share of a root.
pub fn root_back<R: Wait, L: Ledger>(
    rt: &R,
    table: &NodeTable,
    pass: &mut Pass,
    root: Option<Share>,
    steps: &mut Steps<L>,
)
    requires of { BelongsTo table.now pass.old }
    requires idle { HasNoTurn pass.old.view }
    requires held { (n : Name) → root ≡ Some n → HoldsName pass.old.view.held n }
    requires room { number_of_trees pass.old.view.held ≤ 4000 }
    ensures of { BelongsTo table.now pass.new }
    ensures idle { HasNoTurn pass.new.view }
    ensures log { pass.new.view.log ≡ pass.old.view.log }
    ensures gone { ReturnsShare root pass.old.view.held pass.new.view.held }
{
    match root {
        Some(share) => release::back(rt, table, pass, share, steps),
        None => {}
    }
}

/// Gives back what the pass holds.
pub fn all_back<R: Wait, L: Ledger>(
    rt: &R,
    table: &NodeTable,
    pass: &mut Pass,
    root: Option<Share>,
    steps: &mut Steps<L>,
)
    requires { HoldsUniform table.now pass.old root }
    ensures { IsSpare table.now pass.new }
{
    root_back(rt, table, pass, root, steps);
}

/// Ends all passes, and says how many there were.
pub fn ended(table: &NodeTable, mut passes: Vec<Pass>) -> u32
    requires { All (IsSpare table.now) passes.items }
{
    let mut number: u32 = 0;
    while let Some(pass) = passes.pop() {
        number = number.saturating_add(1);
        pass.end();
    }
    passes.destroy_empty();
    number
}

/// A table by this plan, of a world with no model, and its passes.
#[tactic(auto, using(crate::proofs::HoldingLaws::new_spare))]
pub fn begun(alloc: Global, plan: &Plan, sessions: u16) -> Result<(NodeTable, Vec<Pass>), Fail>
    requires { (1 ≤ sessions) × (sessions ≤ 64) }
    ensures { IfOk result (λ r. All (IsSpare r.0) r.1.items) }
{
    let models = Models {
        list: Vec::new(alloc),
    };
    match NodeTable::begin(alloc, plan, &models, sessions) {
        Ok(begun) => Ok(begun),
        Err(_) => Err(Fail::from("memory")),
    }
}

/// What the table is closed with. Where it isn't closed, its passes are ended.
#[tactic(auto, using(crate::proofs::HoldingLaws::back_spare))]
pub fn closed(alloc: Global, table: NodeTable, passes: Vec<Pass>) -> Option<Closed>
    requires { All (IsSpare table) passes.items }
{
    match table.close(alloc, passes) {
        Ok(closed) => Some(closed),
        Err(
            TableCloseRefused::Count {
                table,
                passes,
                made: _,
            },
        ) => {
            let _number = ended(&table, passes);
            None
        }
        Err(TableCloseRefused::Memory { table, passes }) => {
            let _number = ended(&table, passes);
            None
        }
    }
}
