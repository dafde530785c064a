use core_laws::{Places, child_in, child_word, halves, pair_word};
use node_words::{Name, Plan};
use std::test::Fail;
use vw_cell::Side;

#[test]
fn words_stand_for_children(rt: HostRuntime) {
    let first = Name {
        level: 2,
        bucket: 0,
        slot: 0,
    };
    let last = Name {
        level: 2,
        bucket: 4095,
        slot: 255,
    };
    for (child, word) in [(None, 0), (Some(first), 1), (Some(last), 1_048_576)] {
        assert_eq!(rt; child_word(child), word);
        if word <= 1 << 24 {
            assert_eq!(rt; child_in(word, 2), child, "of {word}");
        }
    }
    assert_eq!(rt; pair_word(1, 2), 8_589_934_593);
    assert_eq!(rt; halves(8_589_934_593), (1, 2));
}

// Three words, those of 65,536 versions and three that stay 0, then the buckets: 4,096 of leaves
// with 264 words each, and 11,776 of nodes with 648.
#[test]
fn versions_stand_before_buckets(rt: HostRuntime) -> Result<(), Fail> {
    let side = Side::new(4096).ok_or("a side")?;
    let usual = Places::new(&Plan::usual(side));
    assert_eq!(rt; usual.width(), 3 + 524_288 + 3 + 4_096 * 264 + 11_776 * 648);
    let places = (usual.sessions(), usual.log_turn(), usual.log_length());
    assert_eq!(rt; places, (0, 1, 2));
    assert_eq!(rt;
        (usual.version(0, 0), usual.version(65_535, 7)),
        (3, 524_290)
    );
    assert_eq!(rt;
        (usual.turn(0, 0), usual.turn(0, 4095)),
        (524_294, 1_605_374)
    );
    assert_eq!(rt;
        (usual.used(0, 0), usual.used(0, 4095)),
        (524_295, 1_605_375)
    );
    Ok(())
}

// A bucket's head has 136 words: its turn, its used slots, 128 books and six words that stay 0.
// Behind it stand 128 keys of one word, or of four side by side.
#[test]
fn keys_stand_behind_heads(rt: HostRuntime) -> Result<(), Fail> {
    let side = Side::new(4096).ok_or("a side")?;
    let usual = Places::new(&Plan::usual(side));
    for (level, bucket, slot, book, key) in [
        (0, 0, 0, 524_296, 524_430),
        (0, 0, 127, 524_423, 524_557),
        (0, 1, 0, 524_560, 524_694),
        (1, 0, 0, 1_605_640, 1_605_774),
        (1, 1, 5, 1_606_293, 1_606_442),
    ] {
        let places = (
            usual.book(level, bucket, slot),
            usual.key(level, bucket, slot, 0),
        );
        assert_eq!(rt; places, (book, key));
    }
    assert_eq!(rt; (usual.bucket(1, 1), usual.head()), (1_606_286, 136));
    assert_eq!(rt; usual.key(1, 1, 5, 3), 1_606_445);
    Ok(())
}

// Each bucket begins with a line of memory, whatever the cap, since the table's memory begins two
// words behind one.
#[test]
fn buckets_begin_with_lines(rt: HostRuntime) -> Result<(), Fail> {
    let side = Side::new(64).ok_or("a side")?;
    let odd = Places::new(&Plan::even(side, 3, 13).ok_or("a plan")?);
    for (level, bucket, place) in [
        (0, 0, 524_294),
        (0, 1, 524_326),
        (1, 0, 524_390),
        (1, 1, 524_462),
    ] {
        assert_eq!(rt; (odd.bucket(level, bucket), place % 8), (place, 6));
    }
    Ok(())
}

#[test]
fn tables_have_the_width_of_their_plan(rt: HostRuntime) -> Result<(), Fail> {
    let large = Plan::even(Side::new(4096).ok_or("a side")?, 4096, 256).ok_or("a plan")?;
    assert_eq!(rt; Places::new(&large).width(), 55_410_694);
    let small = Plan::even(Side::new(4).ok_or("a side")?, 1, 1).ok_or("a plan")?;
    assert_eq!(rt; Places::new(&small).width(), 524_294 + 8 + 8);
    Ok(())
}
