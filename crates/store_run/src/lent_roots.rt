//! The file of the versions that are kept. While it is written their roots are out of their places,
//! and then they come back.
ghost use Rattle.std.specs.Prelude.{◌≡◌, ◌+◌, ◌-◌, ◌<◌, ◌≤◌, [], IfOk, length, vec_capacity, vec_len};
ghost use Rattle.node_words.specs.shapes.Weights.{number_of_trees};
ghost use Rattle.dag_file.specs.Lists.{HoldsList, DoNumbersRise, AreNumbersSmall, IsFileOfList};
ghost use Rattle.one_store.specs.Known.{Known, known_state};
ghost use Rattle.one_store.specs.Steps.{KeepsRoot, SparesRoots};
ghost use Rattle.store_run.specs.Kept.{log_of, moment_of, mark_in, AreStoredVersions, AreVersions, HoldsNothing};
ghost use Rattle.store_run.specs.Steps.{LeavesAll};
ghost use Rattle.store_run.specs.Taken.{AreTakenRoots, AreToBeTaken, AreLent, AreLeftOut, CanComeBack, IsFileOfHeld};

use crate::stored_versions::Versions;
use dag_file::write_dag;
use history_model::Mark;
use node_words::{NodeStore, Share};
use one_store::OneStore;
use std::alloc::Global;
use vw_cell::{Memory, Side};

impl Versions {
    /// The file of the versions that are kept.
    pub(crate) fn dag(&mut self, alloc: Global) -> Result<Vec<u8>, Memory>
        requires are { AreStoredVersions self.old }
        requires free { HoldsNothing self.old.store }
        ensures are { AreStoredVersions self.new }
        ensures plain { AreVersions self.old → AreVersions self.new }
        ensures leaves { LeavesAll self.old self.new }
        ensures nothing { HoldsNothing self.new.store }
        ensures file { IfOk result
            (λ file. IsFileOfHeld self.old.models.models (log_of self.old) file.items) }
    {
        let versions = self.records.len() + 1;
        let side = self.side;
        let mut roots = Vec::with_capacity(alloc, versions)?;
        let _before = self.store.number();
        take_roots(&mut self.store, self.marks.as_slice(), versions, &mut roots);
        let file = file_of_list(alloc, side, &mut self.store, roots.as_slice());
        let _lent = self.store.number();
        put_roots(&mut self.store, roots);
        let _after = self.store.number();
        file
    }
}

// The roots of the versions that are kept leave their places.
fn take_roots(
    store: &mut OneStore,
    marks: &[Option<Mark>],
    versions: usize,
    roots: &mut Vec<(u32, Option<Share>)>,
)
    requires free { number_of_trees store.old.told.held ≡ 0 }
    requires places { length marks.now ≡ 65536 }
    requires few { versions ≤ 65536 }
    requires none { roots.old.items ≡ [] }
    requires room { versions ≤ vec_capacity roots.old }
    ensures { (v : Versions) → AreToBeTaken v store.old marks.now versions
        → AreTakenRoots v versions store.new roots.new.items }
{
    for version in 0..versions {
        take_root(store, version as u32, marks[version], roots);
    }
}

// The root of the version leaves its place, where the version has no mark.
#[tactic(auto, using(crate::proofs::Taken::version_taken, crate::proofs::Taken::version_passed, crate::proofs::Lent::one_more))]
pub(crate) fn take_root(
    store: &mut OneStore,
    version: u32,
    mark: Option<Mark>,
    roots: &mut Vec<(u32, Option<Share>)>,
)
    requires there { version < 65536 }
    requires few { number_of_trees store.old.told.held ≤ 69631 }
    requires room { vec_len roots.old < vec_capacity roots.old }
    ensures taken { (v : Versions) → AreStoredVersions v → version ≤ moment_of v
        → mark_in v.marks.items version ≡ mark
        → AreTakenRoots v version store.old roots.old.items
        → AreTakenRoots v (version + 1) store.new roots.new.items }
    ensures few { number_of_trees store.new.told.held
        ≤ number_of_trees store.old.told.held + 1 }
    ensures room { vec_capacity roots.new ≡ vec_capacity roots.old }
    ensures many { vec_len roots.new ≤ vec_len roots.old + 1 }
{
    if let Some(_mark) = mark {
        return;
    }
    let root = store.take_root(version);
    roots.push_reserved((version, root));
}

// The file of versions whose roots are held.
#[tactic(auto, using(dag_file::proofs::CanonicalLaws::show_canonical))]
fn file_of_list(
    alloc: Global,
    side: Side,
    store: &mut OneStore,
    roots: &[(u32, Option<Share>)],
) -> Result<Vec<u8>, Memory>
    requires roots { HoldsList (known_state store.old).held (side - 1) roots.now }
    requires rise { DoNumbersRise roots.now }
    requires small { AreNumbersSmall roots.now }
    requires side { store.old.words.plan.side ≡ side }
    ensures file { IfOk result (λ file. IsFileOfList (known_state store.old).held (side - 1)
        roots.now file.items) }
    ensures seen { known_state store.new ≡ known_state store.old }
    ensures spares { SparesRoots store.old store.new }
{
    let mut file = Vec::new(alloc);
    let _number = store.held();
    write_dag(alloc, store, side, roots, &mut file)?;
    Ok(file)
}

// The roots go back to their places.
fn put_roots(store: &mut OneStore, roots: Vec<(u32, Option<Share>)>)
    requires { AreLent store.old roots.items }
    ensures { (from : Known) → AreLeftOut from store.old roots.items
        → AreLeftOut from store.new [] }
{
    let mut left = roots.into_iter();
    while let Some(item) = left.next() {
        put_root(store, item);
    }
    left.destroy_empty();
}

// The root goes back to its place.
fn put_root(store: &mut OneStore, item: (u32, Option<Share>))
    requires { CanComeBack store.old item }
    ensures { KeepsRoot store.old item.0 item.1 store.new }
{
    let (version, root) = item;
    store.keep_root(version, root);
}
