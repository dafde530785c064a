// Buckets computed outside, by oracle/buckets.py from the rule's text.
use node_words::{Key, Name, Plan, Share, bucket_of};
use std::process::Abort;
use std::test::Fail;
use vw_cell::Side;

const NONE: u32 = 1 << 20;

fn child(bucket: u32) -> Option<Name> {
    if bucket < 65536 {
        Some(Name {
            level: 0,
            bucket: bucket as u16,
            slot: 7,
        })
    } else {
        None
    }
}

fn node(of: [u32; 8]) -> Key {
    Key::Node([
        child(of[0]),
        child(of[1]),
        child(of[2]),
        child(of[3]),
        child(of[4]),
        child(of[5]),
        child(of[6]),
        child(of[7]),
    ])
}

fn buckets_are<R: Abort>(rt: &R, key: &Key, want: [u16; 7]) {
    assert_eq!(rt; bucket_of(key, 1), want[0]);
    assert_eq!(rt; bucket_of(key, 2), want[1]);
    assert_eq!(rt; bucket_of(key, 7), want[2]);
    assert_eq!(rt; bucket_of(key, 256), want[3]);
    assert_eq!(rt; bucket_of(key, 1024), want[4]);
    assert_eq!(rt; bucket_of(key, 4096), want[5]);
    assert_eq!(rt; bucket_of(key, 65535), want[6]);
}

#[test]
fn leaves_have_their_buckets(rt: HostRuntime) {
    for (bits, want) in [
        (0x0000000000000001, [0, 0, 3, 46, 46, 2094, 43896]),
        (0x0000000000000002, [0, 0, 0, 106, 106, 3178, 23371]),
        (0x8000000000000000, [0, 1, 4, 215, 983, 983, 36881]),
        (0xffffffffffffffff, [0, 1, 0, 151, 151, 2199, 54902]),
        (0x000000000000000f, [0, 0, 2, 164, 420, 2468, 33179]),
        (0x8000000000000001, [0, 1, 5, 113, 625, 3697, 65183]),
        (0x0123456789abcdef, [0, 1, 6, 57, 313, 3385, 36016]),
        (0x5555555555555555, [0, 1, 0, 109, 877, 3949, 16532]),
        (0x0033003300330033, [0, 1, 2, 23, 535, 2583, 57460]),
        (0xffff0000ffff0000, [0, 1, 3, 187, 187, 1211, 48001]),
        (0x0000000000008421, [0, 1, 4, 243, 243, 3315, 15558]),
    ] {
        buckets_are(&rt, &Key::Leaf(bits), want);
    }
}

// Children's buckets, and the buckets of such a node.
const NODES: [([u32; 8], [u16; 7]); 12] = [
    (
        [0, NONE, NONE, NONE, NONE, NONE, NONE, NONE],
        [0, 1, 6, 161, 417, 1441, 58408],
    ),
    (
        [NONE, 0, NONE, NONE, NONE, NONE, NONE, NONE],
        [0, 1, 4, 175, 943, 2991, 25285],
    ),
    (
        [NONE, NONE, NONE, NONE, NONE, NONE, NONE, 0],
        [0, 0, 0, 168, 936, 4008, 52083],
    ),
    ([0, 0, 0, 0, 0, 0, 0, 0], [0, 0, 2, 70, 70, 3142, 50405]),
    ([1, 2, 3, 4, 5, 6, 7, 8], [0, 1, 5, 215, 215, 1239, 47498]),
    ([8, 7, 6, 5, 4, 3, 2, 1], [0, 1, 0, 161, 929, 4001, 60329]),
    (
        [NONE, 4095, NONE, 4095, NONE, 4095, NONE, 4095],
        [0, 0, 6, 48, 48, 2096, 4964],
    ),
    (
        [4095, NONE, 17, NONE, 300, NONE, 1023, NONE],
        [0, 0, 0, 64, 64, 2112, 4865],
    ),
    (
        [255, 254, NONE, NONE, 253, 252, NONE, NONE],
        [0, 1, 4, 1, 769, 2817, 8827],
    ),
    (
        [1, 2, 3, 4, NONE, NONE, NONE, NONE],
        [0, 0, 5, 172, 684, 3756, 48400],
    ),
    (
        [NONE, NONE, NONE, NONE, 1, 2, 3, 4],
        [0, 1, 5, 229, 997, 997, 37178],
    ),
    (
        [65535, 65535, 65535, 65535, 65535, 65535, 65535, 65535],
        [0, 0, 4, 178, 178, 1202, 15710],
    ),
];

#[test]
fn nodes_have_their_buckets(rt: HostRuntime) {
    for (of, want) in NODES {
        buckets_are(&rt, &node(of), want);
    }
}

#[test]
fn usual_plans_have_their_buckets(rt: HostRuntime) -> Result<(), Fail> {
    let side = Side::new(256).ok_or("a side")?;
    let usual = Plan::usual(side);
    assert_eq!(rt; (usual.side(), usual.cap()), (side, 128));
    assert_eq!(rt;
        usual.buckets(),
        [4096, 4096, 4096, 1024, 1024, 256, 256, 256, 256, 256, 256]
    );
    let small = Plan::with_cap(side, 1).ok_or("a plan")?;
    assert_eq!(rt; (small.buckets(), small.cap()), (usual.buckets(), 1));
    Ok(())
}

#[test]
fn even_plans_keep_what_they_were_made_of(rt: HostRuntime) -> Result<(), Fail> {
    let side = Side::new(256).ok_or("a side")?;
    let even = Plan::even(side, 4096, 256).ok_or("a plan")?;
    assert_eq!(rt; (even.buckets(), even.cap()), ([4096; 11], 256));
    for (buckets, cap) in [(0, 1), (4097, 1), (1, 0), (1, 257)] {
        assert!(rt; Plan::even(side, buckets, cap).is_none());
    }
    assert!(rt; Plan::with_cap(side, 0).is_none() && Plan::with_cap(side, 257).is_none());
    Ok(())
}

#[test]
fn shares_have_their_names(rt: HostRuntime) {
    let name = Name {
        level: 3,
        bucket: 500,
        slot: 9,
    };
    let share = Share::of_store(name);
    assert_eq!(rt; share.name(), name);
    assert_eq!(rt; share.spend(), name);
}
