ghost use Rattle.std.specs.Prelude.{◌≡◌, ◌≢◌, ◌<◌, ◌≤◌, ◌+◌, ◌↔◌, ℕ, [], None, Some, IfOk, IsTrue, MatchOption, length};
ghost use Rattle.std.specs.Prelude.{slice_index_or, sum_by, vec_len, vec_capacity};
ghost use Rattle.std.specs.List.{remove};
ghost use Rattle.node_words.specs.declared.shapes.names.Name.{Name as name};
ghost use Rattle.core_laws.specs.Counting.{weight};
ghost use Rattle.world_core.specs.Trading.{HasAll, TradesNames};

use node_words::Name;
use std::alloc::Global;
use std::marker::Model;
use vw_cell::Memory;

/// What a session holds: a name for each share. Contracts see the list of names.
#[derive(Drop)]
pub struct Holding {
    names: Vec<Name>,
}

impl Model for Holding {
    ghost use Rattle.std.specs.Prelude.{List};
    ghost use Rattle.node_words.specs.declared.shapes.names.Name.{Name as name};

    ghost Value = { List name };

    ghost view = { λ h. h.names.items };
}

impl Holding {
    /// Nothing is held.
    pub fn new(alloc: Global) -> Holding
        ensures { result ≡ [] }
    {
        Holding {
            names: Vec::new(alloc),
        }
    }

    /// How many shares are held.
    pub fn len(&self) -> usize
        ensures { result ≡ length self.now }
    {
        self.names.len()
    }

    /// The names held, one for each share.
    pub fn names(&self) -> &[Name]
        ensures { result.now ≡ self.now }
    {
        &self.names
    }

    /// Whether all these names are held, counted with repeats.
    pub fn has_all(&self, alloc: Global, some: &[Option<Name>]) -> Result<bool, Memory>
        ensures { IfOk result (λ b. IsTrue b ↔ HasAll self.now some.now) }
    {
        match rest_of(alloc, &self.names, some)? {
            None => Ok(false),
            Some(_) => Ok(true),
        }
    }

    /// What is left without some of the names, with room for one more.
    pub fn without(&self, alloc: Global, gives: &[Option<Name>]) -> Result<Rest, Memory>
        requires { HasAll self.now gives.now }
        ensures { IfOk result (TradesNames self.now gives.now []) }
    {
        match rest_of(alloc, &self.names, gives)? {
            None => Ok(Rest {
                names: Vec::with_capacity(alloc, 1)?,
            }),
            Some(mut names) => {
                names.reserve(1)?;
                Ok(Rest { names })
            }
        }
    }

    /// What is held once some of the names went and others came.
    pub fn traded(
        &self,
        alloc: Global,
        gives: &[Option<Name>],
        takes: &[Option<Name>],
    ) -> Result<Holding, Memory>
        requires { HasAll self.now gives.now }
        ensures { IfOk result (TradesNames self.now gives.now takes.now) }
    {
        match rest_of(alloc, &self.names, gives)? {
            None => Ok(Holding::new(alloc)),
            Some(rest) => Ok(Holding {
                names: with_names(rest, takes)?,
            }),
        }
    }
}

/// What is left of a holding, with room for one more name. Contracts see the list of names.
#[derive(Drop)]
pub struct Rest {
    names: Vec<Name>,
}

impl Model for Rest {
    ghost use Rattle.std.specs.Prelude.{List, ◌<◌, vec_len, vec_capacity};
    ghost use Rattle.node_words.specs.declared.shapes.names.Name.{Name as name};

    ghost Value = { List name };

    ghost view = { λ r. r.names.items };

    ghost invariant = { λ r. vec_len r.names < vec_capacity r.names };
}

impl Rest {
    /// The holding with this name besides. It takes no memory.
    pub fn with(self, n: Name) -> Holding
        ensures { result ≡ self ++ n ∷ [] }
    {
        let Rest { mut names } = self;
        names.push_reserved(n);
        Holding { names }
    }
}

ghost use Rattle.std.specs.Prelude.{◌++◌, ◌∷◌};

// What is left of the names without some of them; `None` where they aren't all there.
fn rest_of(
    alloc: Global,
    names: &[Name],
    some: &[Option<Name>],
) -> Result<Option<Vec<Name>>, Memory>
    ensures { IfOk result (λ rest. MatchOption rest (HasAll names.now some.now → ⊥)
        (λ v. TradesNames names.now some.now [] v.items)) }
{
    let mut rest = Vec::from_slice(alloc, names)?;
    for n in some {
        if !take_out(&mut rest, *n) {
            return Ok(None);
        }
    }
    Ok(Some(rest))
}

// Takes a name out of a list, where there is one to take; whether it was there.
fn take_out(names: &mut Vec<Name>, some: Option<Name>) -> bool
    ensures out { IsTrue result → (f : name → ℕ)
        → sum_by f names.new.items + weight f some ≡ sum_by f names.old.items }
    ensures absent { result ≡ false → (m : name) × (some ≡ Some m)
        × ((k : ℕ) → k < length names.old.items → slice_index_or names.old.items k m ≢ m) }
{
    let n = match some {
        None => return true,
        Some(n) => n,
    };
    match place_of(names, n) {
        None => false,
        Some(at) => {
            let _name = names.remove(at);
            true
        }
    }
}

ghost use Rattle.std.specs.Prelude.{false};

fn place_of(names: &[Name], n: Name) -> Option<usize>
    ensures { MatchOption result
        ((k : ℕ) → k < length names.now → slice_index_or names.now k n ≢ n)
        (λ at. (at < length names.now) × (slice_index_or names.now at n ≡ n)) }
{
    for (at, name) in names.iter().enumerate() {
        if is_same(*name, n) {
            return Some(at);
        }
    }
    None
}

/// Whether both are one name.
pub fn is_same(a: Name, b: Name) -> bool
    ensures { IsTrue result ↔ (a ≡ b) }
{
    a.level == b.level && a.bucket == b.bucket && a.slot == b.slot
}

// The names with some others behind them.
fn with_names(names: Vec<Name>, some: &[Option<Name>]) -> Result<Vec<Name>, Memory>
    ensures { IfOk result (λ v. (f : name → ℕ)
        → sum_by f v.items ≡ sum_by f names.items + sum_by (weight f) some.now) }
{
    let mut names = names;
    for n in some {
        push_some(&mut names, *n)?;
    }
    Ok(names)
}

fn push_some(names: &mut Vec<Name>, some: Option<Name>) -> Result<(), Memory>
    ensures { OnOk result ((f : name → ℕ)
        → sum_by f names.new.items ≡ sum_by f names.old.items + weight f some) }
{
    if let Some(n) = some {
        names.push(n)?;
    }
    Ok(())
}

ghost use Rattle.std.specs.Prelude.{OnOk};
