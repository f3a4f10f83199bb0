//! The whole life of a row, step by step: granted, set up, opened, linked, looked at by another pass, unlinked, marked, sampled and
//! given to limbo.
use crate::steps::Step::{
    Enter, Entry, Generation, Give, Grab, Leave, Look, Mark, Open, Position, Release, Sample, Turn,
    Unlink,
};
use crate::steps::{DIRECTORY, Machine, Moment, ROOT, Step, take, watch};
use std::test::Fail;
use walk_core::RowState::{Free, Hand, Limbo, Linked, Unlinked};
use walk_core::{Place, Stand};

// At the top, row 2 of 4 rows is the root of space 5. Its lock word is at 1542, its position word at 1543 and its generation
// word at 1544. The epoch words of the passes 0 and 1 are at 2060 and 2061, and the book's lock word at 2062.

const TOP: Option<Stand> = Some(Stand {
    row: 2,
    place: Place {
        space: 5,
        level: 4,
        prefix: 0,
    },
    generation: 2,
});

const INTO_THE_TOP: [Moment; 11] = [
    (Turn(0), 2062, 1, None, Free),
    (Give(0, &[], &[], &[2]), 2062, 0, None, Hand(0)),
    (Position(0, 2, 5, 4, 0), 1543, 44, None, Hand(0)),
    (Generation(0, 2, 2), 1544, 2, None, Hand(0)),
    (Open(0, 2), 1542, 1, None, Hand(0)),
    (Enter(0), 2060, 1, DIRECTORY, Hand(0)),
    (Grab(0, 0), 512, 1, DIRECTORY, Hand(0)),
    (Entry(0, 0, 5, 0x802207), 5, 0x802207, DIRECTORY, Linked),
    (Release(0, 2), 1542, 0, DIRECTORY, Linked),
    (Enter(1), 2061, 1, DIRECTORY, Linked),
    (Look(1, 0, 5), 5, 0x802207, TOP, Linked),
];

const OUT_OF_THE_TOP: [Moment; 13] = [
    (Grab(1, 2), 1542, 2, TOP, Linked),
    (Grab(0, 2), 1542, 2, DIRECTORY, Linked),
    (Release(1, 2), 1542, 0, TOP, Linked),
    (Grab(0, 2), 1542, 1, DIRECTORY, Linked),
    (Unlink(0, 0, 5), 5, 0, DIRECTORY, Unlinked(0)),
    (Mark(0, 2), 1542, 256, DIRECTORY, Unlinked(0)),
    (Grab(1, 2), 1542, 256, TOP, Unlinked(0)),
    (Leave(0), 2060, 2, None, Unlinked(0)),
    (Sample(0, 0), 2060, 2, None, Unlinked(0)),
    (Sample(0, 1), 2061, 1, None, Unlinked(0)),
    (Turn(0), 2062, 1, None, Unlinked(0)),
    (Give(0, &[(2, 2, 1)], &[], &[]), 2062, 0, None, Limbo),
    (Leave(1), 2061, 2, None, Limbo),
];

#[test]
fn at_the_top(rt: HostRuntime) -> Result<(), Fail> {
    let mut core = Machine::boot(rt.alloc(), 4, 2, 4)?;
    watch(&rt, rt.alloc(), &mut core, 2, &INTO_THE_TOP)?;
    watch(&rt, rt.alloc(), &mut core, 2, &OUT_OF_THE_TOP)?;
    Ok(())
}

// In the middle, row 2 of 3 rows is of level 3, linked by entry 7 of the root, which is row 1. The lock word of row 1 is at
// 1027, the epoch words are at 1545 and 1546, and the book's lock word is at 1547.

const MIDDLE: Option<Stand> = Some(Stand {
    row: 2,
    place: Place {
        space: 0,
        level: 3,
        prefix: 7,
    },
    generation: 0x3fff_ffff,
});

const INTO_THE_MIDDLE: [Moment; 14] = [
    (Enter(0), 1545, 1, DIRECTORY, Free),
    (Look(0, 0, 0), 0, 0x401207, ROOT, Free),
    (Grab(0, 1), 1027, 1, ROOT, Free),
    (Turn(0), 1547, 1, ROOT, Free),
    (Give(0, &[], &[], &[2]), 1547, 0, ROOT, Hand(0)),
    (
        Generation(0, 2, 0x3fff_ffff),
        1544,
        0x3fff_ffff,
        ROOT,
        Hand(0),
    ),
    (Position(0, 2, 0, 3, 7), 1543, 3587, ROOT, Hand(0)),
    (Open(0, 2), 1542, 1, ROOT, Hand(0)),
    (
        Entry(0, 1, 7, 0xf_ffff_ffc0_2207),
        522,
        0xf_ffff_ffc0_2207,
        ROOT,
        Linked,
    ),
    (Release(0, 2), 1542, 0, ROOT, Linked),
    (Enter(1), 1546, 1, DIRECTORY, Linked),
    (Look(1, 0, 0), 0, 0x401207, ROOT, Linked),
    (Look(1, 1, 7), 522, 0xf_ffff_ffc0_2207, MIDDLE, Linked),
    (Look(1, 2, 0), 1030, 0, MIDDLE, Linked),
];

const OUT_OF_THE_MIDDLE: [Moment; 13] = [
    (Grab(0, 2), 1542, 1, ROOT, Linked),
    (Unlink(0, 1, 7), 522, 0, ROOT, Unlinked(0)),
    (Mark(0, 2), 1542, 256, ROOT, Unlinked(0)),
    (Turn(1), 1547, 2, MIDDLE, Unlinked(0)),
    (Turn(0), 1547, 2, ROOT, Unlinked(0)),
    (Leave(0), 1545, 2, None, Unlinked(0)),
    (Sample(0, 0), 1545, 2, None, Unlinked(0)),
    (Sample(0, 1), 1546, 1, None, Unlinked(0)),
    (Give(1, &[], &[], &[]), 1547, 0, MIDDLE, Unlinked(0)),
    (Turn(0), 1547, 1, None, Unlinked(0)),
    (Give(0, &[(2, 2, 1)], &[], &[]), 1547, 0, None, Limbo),
    (Release(0, 1), 1027, 0, None, Limbo),
    (Leave(1), 1546, 2, None, Limbo),
];

#[test]
fn in_the_middle(rt: HostRuntime) -> Result<(), Fail> {
    let mut core = Machine::boot(rt.alloc(), 3, 2, 4)?;
    watch(&rt, rt.alloc(), &mut core, 2, &INTO_THE_MIDDLE)?;
    watch(&rt, rt.alloc(), &mut core, 2, &OUT_OF_THE_MIDDLE)?;
    Ok(())
}

// At level 1, row 4 of 5 rows is linked by entry 3 of row 3, that by entry 2 of row 2, and that by entry 1 of the root. The words
// of row 3 begin at 1545 and those of row 4 at 2060. The epoch words are at 2575 and 2576, and the book's lock word is at 2577.

const ROWS_ABOVE: [(Step, bool); 19] = [
    (Enter(0), true),
    (Look(0, 0, 0), true),
    (Grab(0, 1), true),
    (Turn(0), true),
    (Give(0, &[], &[], &[2, 3]), true),
    (Position(0, 2, 0, 3, 1), true),
    (Generation(0, 2, 2), true),
    (Open(0, 2), true),
    (Entry(0, 1, 1, 0x802207), true),
    (Position(0, 3, 0, 2, 514), true),
    (Generation(0, 3, 3), true),
    (Open(0, 3), true),
    (Entry(0, 2, 2, 0xc03207), true),
    (Release(0, 1), true),
    (Release(0, 2), true),
    (Enter(1), true),
    (Look(1, 0, 0), true),
    (Look(1, 1, 1), true),
    (Look(1, 2, 2), true),
];

const LOWEST: Option<Stand> = Some(Stand {
    row: 4,
    place: Place {
        space: 0,
        level: 1,
        prefix: 263_171,
    },
    generation: 4,
});

const INTO_LEVEL_ONE: [Moment; 12] = [
    (Turn(0), 2577, 1, ROOT, Free),
    (Give(0, &[], &[], &[4]), 2577, 0, ROOT, Hand(0)),
    (
        Position(0, 4, 0, 1, 263_171),
        2573,
        134_743_553,
        ROOT,
        Hand(0),
    ),
    (Generation(0, 4, 4), 2574, 4, ROOT, Hand(0)),
    (Open(0, 4), 2572, 1, ROOT, Hand(0)),
    (Entry(0, 3, 3, 0x1004207), 1548, 0x1004207, ROOT, Linked),
    (Look(1, 3, 3), 1548, 0x1004207, LOWEST, Linked),
    (
        Entry(0, 4, 9, 0x8000_0000_0000_0007),
        2069,
        0x8000_0000_0000_0007,
        ROOT,
        Linked,
    ),
    (Look(1, 4, 9), 2069, 0x8000_0000_0000_0007, LOWEST, Linked),
    (Entry(0, 4, 9, 0x1005), 2069, 0x1005, ROOT, Linked),
    (Release(0, 4), 2572, 0, ROOT, Linked),
    (Grab(0, 4), 2572, 1, ROOT, Linked),
];

const OUT_OF_LEVEL_ONE: [Moment; 11] = [
    (Entry(0, 4, 9, 0), 2069, 0, ROOT, Linked),
    (Unlink(0, 3, 3), 1548, 0, ROOT, Unlinked(0)),
    (Mark(0, 4), 2572, 256, ROOT, Unlinked(0)),
    (Look(1, 4, 9), 2069, 0, LOWEST, Unlinked(0)),
    (Leave(0), 2575, 2, None, Unlinked(0)),
    (Sample(0, 0), 2575, 2, None, Unlinked(0)),
    (Sample(0, 1), 2576, 1, None, Unlinked(0)),
    (Turn(0), 2577, 1, None, Unlinked(0)),
    (Give(0, &[(4, 2, 1)], &[], &[]), 2577, 0, None, Limbo),
    (Release(0, 3), 2057, 0, None, Limbo),
    (Enter(0), 2575, 3, DIRECTORY, Limbo),
];

#[test]
fn at_level_one(rt: HostRuntime) -> Result<(), Fail> {
    let mut core = Machine::boot(rt.alloc(), 5, 2, 4)?;
    take(&rt, rt.alloc(), &mut core, &ROWS_ABOVE)?;
    watch(&rt, rt.alloc(), &mut core, 4, &INTO_LEVEL_ONE)?;
    watch(&rt, rt.alloc(), &mut core, 4, &OUT_OF_LEVEL_ONE)?;
    Ok(())
}

// With five levels row 5 of six is at level 1, linked by entry 3 of row 4, that by entry 2 of row 3, that by entry 1 of row 2, and that by entry
// 0 of the root. The words of row 4 begin at 2060 and those of row 5 at 2575. The epoch words are at 3090 and 3091, and the book's lock word is
// at 3092.

const FIVE_ABOVE: [(Step, bool); 21] = [
    (Enter(0), true),
    (Look(0, 0, 0), true),
    (Grab(0, 1), true),
    (Turn(0), true),
    (Give(0, &[], &[], &[2, 3, 4, 5]), true),
    (Position(0, 2, 0, 5, 0), true),
    (Position(0, 2, 0, 4, 0), true),
    (Generation(0, 2, 2), true),
    (Open(0, 2), true),
    (Entry(0, 1, 0, 0x802207), true),
    (Position(0, 3, 0, 3, 1), true),
    (Generation(0, 3, 3), true),
    (Open(0, 3), true),
    (Entry(0, 2, 1, 0xc03207), true),
    (Position(0, 4, 0, 2, 514), true),
    (Generation(0, 4, 4), true),
    (Open(0, 4), true),
    (Entry(0, 3, 2, 0x1004207), true),
    (Enter(1), true),
    (Look(1, 0, 0), true),
    (Look(1, 1, 0), true),
];

const ROOT_OF_FIVE: Option<Stand> = Some(Stand {
    row: 1,
    place: Place {
        space: 0,
        level: 5,
        prefix: 0,
    },
    generation: 1,
});

const LOWEST_OF_FIVE: Option<Stand> = Some(Stand {
    row: 5,
    place: Place {
        space: 0,
        level: 1,
        prefix: 263_171,
    },
    generation: 5,
});

const TO_LEVEL_ONE_OF_FIVE: [Moment; 6] = [
    (
        Position(0, 5, 0, 1, 263_171),
        3088,
        134_743_553,
        ROOT_OF_FIVE,
        Hand(0),
    ),
    (Generation(0, 5, 5), 3089, 5, ROOT_OF_FIVE, Hand(0)),
    (Open(0, 5), 3087, 1, ROOT_OF_FIVE, Hand(0)),
    (
        Entry(0, 4, 3, 0x1405207),
        2063,
        0x1405207,
        ROOT_OF_FIVE,
        Linked,
    ),
    (Entry(0, 5, 9, 0x1005), 2584, 0x1005, ROOT_OF_FIVE, Linked),
    (Release(0, 5), 3087, 0, ROOT_OF_FIVE, Linked),
];

const DOWN: [(Step, bool); 4] = [
    (Look(1, 2, 1), true),
    (Look(1, 3, 2), true),
    (Look(1, 4, 3), true),
    (Look(1, 5, 9), true),
];

#[test]
fn at_level_one_of_five(rt: HostRuntime) -> Result<(), Fail> {
    let mut core = Machine::boot(rt.alloc(), 6, 2, 5)?;
    take(&rt, rt.alloc(), &mut core, &FIVE_ABOVE)?;
    watch(&rt, rt.alloc(), &mut core, 5, &TO_LEVEL_ONE_OF_FIVE)?;
    take(&rt, rt.alloc(), &mut core, &DOWN)?;
    assert_eq!(rt; core.stand(1), LOWEST_OF_FIVE);
    Ok(())
}
