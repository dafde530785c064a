ghost use Rattle.std.specs.Prelude.{◌≡◌, ◌↔◌, ℕ, ◌≤◌, IsSome, IfSome, IsTrue, replicate, length};

use crate::shapes::Side;
use std::marker::Model;

/// How a store is laid out: the side of its world, the number of buckets on each of the levels 0 to
/// 10, and how many nodes a bucket has room for.
#[derive(Clone, Copy, Debug, PartialEq, Eq)]
pub struct Plan {
    side: Side,
    buckets: [u16; 11],
    cap: u16,
}

impl Model for Plan {
    ghost use Rattle.node_words.specs.Plans.{Layout, IsPlan};

    ghost Value = { Layout };

    ghost view = { λ p. record { side = p.side; buckets = p.buckets; cap = p.cap } };

    ghost invariant = { λ p. IsPlan (record { side = p.side; buckets = p.buckets; cap = p.cap }) };

    ghost inverse = { λ v. record { side = v.side; buckets = v.buckets; cap = v.cap } };
}

/// The room of a bucket where nothing else is asked for.
const USUAL_CAP: u16 = 128;

/// The buckets of each level where nothing else is asked for.
const USUAL_BUCKETS: [u16; 11] = [4096, 4096, 4096, 1024, 1024, 256, 256, 256, 256, 256, 256];

impl Plan {
    ghost use Rattle.node_words.specs.Plans.{Layout, IsPlan, is_number_of_buckets, is_cap, usual_buckets};

    /// The plan of a world of this side where nothing else is asked for.
    pub fn usual(side: Side) -> Plan
        ensures { result ≡ record { side = side; buckets = usual_buckets; cap = 128 } }
    {
        let _cells = side.cells();
        Plan {
            side,
            buckets: USUAL_BUCKETS,
            cap: USUAL_CAP,
        }
    }

    /// As many buckets on each level. `None` where that isn't 1 to 4,096, or the cap isn't 1 to
    /// 256.
    pub fn even(side: Side, buckets: u16, cap: u16) -> Option<Plan>
        ensures exactly { IsSome result ↔
            (IsTrue (is_number_of_buckets buckets) × IsTrue (is_cap cap)) }
        ensures value { IfSome result
            (λ p. p ≡ record { side = side; buckets = replicate 11 buckets; cap = cap }) }
    {
        let _cells = side.cells();
        if is_number_of_buckets(buckets) && is_cap(cap) {
            let b = buckets;
            Some(Plan {
                side,
                buckets: [b, b, b, b, b, b, b, b, b, b, b],
                cap,
            })
        } else {
            None
        }
    }

    /// The usual plan with this cap. `None` where it isn't 1 to 256.
    pub fn with_cap(side: Side, cap: u16) -> Option<Plan>
        ensures exactly { IsSome result ↔ IsTrue (is_cap cap) }
        ensures value { IfSome result
            (λ p. p ≡ record { side = side; buckets = usual_buckets; cap = cap }) }
    {
        let _cells = side.cells();
        if is_cap(cap) {
            Some(Plan {
                side,
                buckets: USUAL_BUCKETS,
                cap,
            })
        } else {
            None
        }
    }

    /// The side of the world.
    pub fn side(&self) -> Side
        ensures value { result ≡ self.now.side }
        ensures plan { IsPlan self.now }
    {
        self.side
    }

    /// The number of buckets on each level, from level 0 up.
    pub fn buckets(&self) -> [u16; 11]
        ensures value { result ≡ self.now.buckets }
        ensures plan { IsPlan self.now }
    {
        self.buckets
    }

    /// How many nodes a bucket has room for.
    pub fn cap(&self) -> u16
        ensures value { result ≡ self.now.cap }
        ensures plan { IsPlan self.now }
    {
        self.cap
    }
}

ghost use Rattle.node_words.specs.Plans.{is_number_of_buckets, is_cap};

fn is_number_of_buckets(buckets: u16) -> bool
    ensures { result ≡ is_number_of_buckets buckets }
{
    1 <= buckets && buckets <= 4096
}

fn is_cap(cap: u16) -> bool
    ensures { result ≡ is_cap cap }
{
    1 <= cap && cap <= 256
}
