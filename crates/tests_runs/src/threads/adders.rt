//! Two workers that meet: each goes on only once the other was at some place, so whoever runs one
//! of them after the other meets nobody.
ghost use Rattle.std.specs.Prelude.{◌≡◌, ◌+◌, ◌<◌, ◌^◌};

use gate_run::{Gate, NoGate, Worker, run_all};
use std::sync::Wait;
use std::sync::atomic::{AtomicU64, Ordering};
use std::test::Fail;
use std::thread::Threads;
use testkit::Turns;

// Adds 1 to a shared word, and notes what stood there when it pinned and when it committed.
#[derive(Drop)]
struct Adder<'a> {
    session: u16,
    word: &'a AtomicU64,
    pinned_at: u64,
    found: u64,
    runs: u32,
}

impl<'a> Adder<'a> {
    fn new(session: u16, word: &'a AtomicU64) -> Adder<'a>
        ensures runs { result.runs ≡ 0 }
    {
        Adder {
            session,
            word,
            pinned_at: 0,
            found: 0,
            runs: 0,
        }
    }
}

impl<'a, G: Gate> Worker<G> for Adder<'a> {
    ghost may_run = { λ w. w.runs + 1 < 2 ^ 32 };

    ghost ran = { λ old new. new.runs ≡ old.runs + 1 };

    fn run<R: Wait>(&mut self, _rt: &R, gate: &G) {
        gate.before(self.session, 1);
        self.pinned_at = self.word.load(Ordering::SeqCst);
        gate.between(self.session, 1);
        self.found = self.word.fetch_add(1, Ordering::SeqCst);
        gate.after(self.session, 1);
        self.runs += 1;
    }
}

// What a worker found when it pinned and when it added, and how often it ran.
#[derive(Clone, Copy, Debug, PartialEq, Eq)]
struct Finding {
    pinned_at: u64,
    found: u64,
    runs: u32,
}

// Two workers run, each once.
fn run_two<R: Threads + Wait + Sync, G: Gate + Sync>(rt: &R, gate: &G) -> (Finding, Finding)
    ensures first { result.0.runs ≡ 1 }
    ensures second { result.1.runs ≡ 1 }
{
    let word = AtomicU64::new(0);
    let mut workers = [Adder::new(0, &word), Adder::new(1, &word)];
    run_all(rt, &mut workers, gate);
    let [first, second] = workers;
    (told(&first), told(&second))
}

fn told(worker: &Adder<'_>) -> Finding
    ensures runs { result.runs ≡ worker.now.runs }
{
    Finding {
        pinned_at: worker.pinned_at,
        found: worker.found,
        runs: worker.runs,
    }
}

// Session 1 pinned before session 0 added, and added after it.
#[test]
fn two_workers_meet(rt: HostRuntime) -> Result<(), Fail> {
    let turns = Turns::new();
    let (first, second) = run_two(&rt, &turns);
    assert!(rt; !turns.is_given_up());
    assert_eq!(rt; (first.pinned_at, first.found), (0, 0));
    assert_eq!(rt; (second.pinned_at, second.found), (0, 1));
    Ok(())
}

// With no gate in their way both add, in whatever order.
#[test]
fn two_workers_add(rt: HostRuntime) -> Result<(), Fail> {
    let (first, second) = run_two(&rt, &NoGate);
    let found = (first.found, second.found);
    assert!(rt; found == (0, 1) || found == (1, 0));
    Ok(())
}
