use history_model::{Act, TintAct, pack, unpack};
use vw_cell::{Ball, Boxed, Cell};

const PART: Boxed = Boxed {
    at: Cell { x: 1, y: 2, z: 3 },
    size: Cell { x: 4, y: 5, z: 6 },
};

const PLACE: u64 = 1 + (2 << 16) + (3 << 32);

const SIZE: u64 = 4 + (5 << 16) + (6 << 32);

const FAR: Boxed = Boxed {
    at: Cell {
        x: 4095,
        y: 0,
        z: 2048,
    },
    size: Cell {
        x: 1,
        y: 4096,
        z: 2048,
    },
};

// Acts, and their kind, PLACE, size (or radius, or model) and target PLACE.
const PACKED: &[(Act, [u64; 4])] = &[
    (Act::Fill(PART), [0, PLACE, SIZE, 0]),
    (Act::Erase(PART), [1, PLACE, SIZE, 0]),
    (
        Act::Erase(FAR),
        [1, 4095 + (2048 << 32), 1 + (4096 << 16) + (2048 << 32), 0],
    ),
    (
        Act::Ball(Ball {
            centre: Cell { x: 1, y: 2, z: 3 },
            radius: 4095,
        }),
        [2, PLACE, 4095, 0],
    ),
    (
        Act::Carve(Ball {
            centre: Cell { x: 1, y: 2, z: 3 },
            radius: 0,
        }),
        [3, PLACE, 0, 0],
    ),
    (
        Act::Copy(PART, Cell { x: 7, y: 8, z: 9 }),
        [4, PLACE, SIZE, 7 + (8 << 16) + (9 << 32)],
    ),
    (
        Act::Stamp(1023, Cell { x: 1, y: 2, z: 3 }),
        [5, PLACE, 1023, 0],
    ),
    (Act::Undo, [6, 0, 0, 0]),
    (Act::Redo, [7, 0, 0, 0]),
    (Act::Tint(TintAct::Fill(PART, 255)), [8, PLACE, SIZE, 255]),
    (Act::Tint(TintAct::Erase(PART)), [9, PLACE, SIZE, 0]),
    (
        Act::Tint(TintAct::Ball(
            Ball {
                centre: Cell { x: 1, y: 2, z: 3 },
                radius: 4095,
            },
            1,
        )),
        [10, PLACE, 4095, 1],
    ),
    (
        Act::Tint(TintAct::Carve(Ball {
            centre: Cell { x: 1, y: 2, z: 3 },
            radius: 0,
        })),
        [11, PLACE, 0, 0],
    ),
    (
        Act::Tint(TintAct::Copy(PART, Cell { x: 7, y: 8, z: 9 })),
        [12, PLACE, SIZE, 7 + (8 << 16) + (9 << 32)],
    ),
    (
        Act::Tint(TintAct::Stamp(1023, Cell { x: 1, y: 2, z: 3 })),
        [13, PLACE, 1023, 0],
    ),
];

#[test]
fn each_kind_has_its_words(rt: HostRuntime) {
    for &(act, words) in PACKED {
        assert!(rt; pack(&act) == words, "{act}");
        assert!(rt; unpack(words) == Some(act), "{act}");
    }
}

const UNIT: u64 = 1 + (1 << 16) + (1 << 32);

// Words of no act of the world of side 4,096.
const UNPACKED: &[[u64; 4]] = &[
    [14, 0, UNIT, 0],
    [256, 0, UNIT, 0],
    [0, 0, 0, 0],
    [0, 0, 1 + (1 << 16), 0],
    [0, 0, UNIT, 1],
    [1, 4096, UNIT, 0],
    [1, 4095 << 16, 1 + (2 << 16) + (1 << 32), 0],
    [0, 1 << 48, UNIT, 0],
    [0, 0, UNIT + (1 << 48), 0],
    [2, 0, 4096, 0],
    [2, 4096 << 32, 0, 0],
    [3, 0, 0, 1],
    [4, 0, UNIT, 4096],
    [4, 0, 2 + (1 << 16) + (1 << 32), 4095],
    [4, 4095, 2 + (1 << 16) + (1 << 32), 0],
    [5, 0, 1024, 0],
    [5, 4096, 0, 0],
    [6, 1, 0, 0],
    [7, 0, 0, 1],
    [8, 0, UNIT, 0],
    [8, 0, UNIT, 256],
    [8, 1024, UNIT, 1],
    [9, 1023, 2 + (1 << 16) + (1 << 32), 0],
    [9, 0, UNIT, 1],
    [10, 0, 1, 0],
    [10, 1024 << 32, 0, 1],
    [11, 0, 4096, 0],
    [12, 0, UNIT, 1024],
    [13, 0, 1024, 0],
    [13, 1024, 0, 0],
];

#[test]
fn other_words_are_no_act(rt: HostRuntime) {
    for &words in UNPACKED {
        assert!(rt;
            unpack(words).is_none(),
            "{} {} {} {}",
            words[0],
            words[1],
            words[2],
            words[3]
        );
    }
}
