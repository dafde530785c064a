ghost use Rattle.std.specs.Prelude.{◌≡◌, ◌≤◌, ◌<◌};
ghost use Rattle.flood.specs.Words.{Spreads, GrowsAlong, AreRuns};

/// The seeds, and the clear bits of the word that runs of clear bits join with them.
pub(crate) fn spread(seeds: u64, clear: u64) -> u64
    ensures { Spreads clear seeds result }
{
    let mut word = seeds;
    loop {
        let next = word | (word << 1 | word >> 1) & clear;
        if next == word {
            return word;
        }
        word = sink(climb(next, clear), clear);
    }
}

// With those that a run joins from below.
fn climb(seeds: u64, clear: u64) -> u64
    ensures { GrowsAlong clear seeds result }
{
    let mut word = seeds;
    let mut runs = clear;
    let mut by = 1u32;
    while by < 64 {
        word |= word << by & runs;
        runs &= runs << by;
        by *= 2;
    }
    word
}

// With those that a run joins from above.
fn sink(seeds: u64, clear: u64) -> u64
    ensures { GrowsAlong clear seeds result }
{
    let mut word = seeds;
    let mut runs = clear;
    let mut by = 1u32;
    while by < 64 {
        word |= word >> by & runs;
        runs &= runs >> by;
        by *= 2;
    }
    word
}
