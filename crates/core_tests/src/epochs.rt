//! A row that leaves limbo once nobody can stand on it, and is used again.
use crate::steps::Step::{
    Enter, Entry, Generation, Give, Grab, Leave, Look, Mark, Open, Position, Sample, Turn, Unlink,
};
use crate::steps::{DIRECTORY, Machine, Moment, ROOT, Step, take, watch};
use std::test::Fail;
use walk_core::RowState::{Free, Hand, Limbo, Linked, Unlinked};
use walk_core::{Place, Stand};

// Row 2 of 4 rows is of level 3, linked by entry 7 of the root, which is row 1. The lock word of row 1 is at 1027, its entry 7 at 522. The
// lock word of row 2 is at 1542, its position word at 1543 and its generation word at 1544. The epoch words are at 2060 and 2061, and the
// book's lock word is at 2062.

const MIDDLE: Option<Stand> = Some(Stand {
    row: 2,
    place: Place {
        space: 0,
        level: 3,
        prefix: 7,
    },
    generation: 2,
});

// Pass 1 is inside all the while.
const IN_AND_OUT: [Moment; 17] = [
    (Enter(1), 2061, 1, DIRECTORY, Free),
    (Sample(0, 1), 2061, 1, None, Free),
    (Turn(0), 2062, 1, None, Free),
    (Give(0, &[], &[], &[2]), 2062, 0, None, Hand(0)),
    (Position(0, 2, 0, 3, 7), 1543, 3587, None, Hand(0)),
    (Generation(0, 2, 2), 1544, 2, None, Hand(0)),
    (Open(0, 2), 1542, 1, None, Hand(0)),
    (Enter(0), 2060, 1, DIRECTORY, Hand(0)),
    (Look(0, 0, 0), 0, 0x401207, ROOT, Hand(0)),
    (Grab(0, 1), 1027, 1, ROOT, Hand(0)),
    (Leave(0), 2060, 2, None, Hand(0)),
    (Entry(0, 1, 7, 0x802207), 522, 0x802207, None, Linked),
    (Look(1, 0, 0), 0, 0x401207, ROOT, Linked),
    (Unlink(0, 1, 7), 522, 0, None, Unlinked(0)),
    (Mark(0, 2), 1542, 256, None, Unlinked(0)),
    (Sample(0, 0), 2060, 2, None, Unlinked(0)),
    (Sample(0, 1), 2061, 1, None, Unlinked(0)),
];

const INTO_LIMBO: [Moment; 4] = [
    (Turn(0), 2062, 1, None, Unlinked(0)),
    (Give(0, &[(2, 2, 1)], &[], &[]), 2062, 0, None, Limbo),
    (Turn(0), 2062, 1, None, Limbo),
    (Sample(0, 0), 2060, 2, None, Limbo),
];

// The number of pass 1 is odd, and no sample since the turn differs from it.
const IS_READ: [(Step, bool); 4] = [
    (Give(0, &[], &[2], &[]), false),
    (Sample(0, 1), true),
    (Sample(0, 1), true),
    (Give(0, &[], &[2], &[]), false),
];

const OUT_OF_LIMBO: [Moment; 4] = [
    (Leave(1), 2061, 2, None, Limbo),
    (Sample(0, 0), 2060, 2, None, Limbo),
    (Sample(0, 1), 2061, 2, None, Limbo),
    (Give(0, &[], &[2], &[]), 2062, 0, None, Free),
];

#[test]
fn a_swept_row(rt: HostRuntime) -> Result<(), Fail> {
    let mut core = Machine::boot(rt.alloc(), 4, 2, 4)?;
    watch(&rt, rt.alloc(), &mut core, 2, &IN_AND_OUT)?;
    watch(&rt, rt.alloc(), &mut core, 2, &INTO_LIMBO)?;
    take(&rt, rt.alloc(), &mut core, &IS_READ)?;
    watch(&rt, rt.alloc(), &mut core, 2, &OUT_OF_LIMBO)?;
    Ok(())
}

// Pass 1 comes to row 2 before it is unlinked, and reads it in limbo.
const A_READER: [Moment; 14] = [
    (Turn(0), 2062, 1, None, Free),
    (Give(0, &[], &[], &[2]), 2062, 0, None, Hand(0)),
    (Position(0, 2, 0, 3, 7), 1543, 3587, None, Hand(0)),
    (Generation(0, 2, 2), 1544, 2, None, Hand(0)),
    (Open(0, 2), 1542, 1, None, Hand(0)),
    (Enter(0), 2060, 1, DIRECTORY, Hand(0)),
    (Look(0, 0, 0), 0, 0x401207, ROOT, Hand(0)),
    (Grab(0, 1), 1027, 1, ROOT, Hand(0)),
    (Leave(0), 2060, 2, None, Hand(0)),
    (Entry(0, 1, 7, 0x802207), 522, 0x802207, None, Linked),
    (Enter(1), 2061, 1, DIRECTORY, Linked),
    (Look(1, 0, 0), 0, 0x401207, ROOT, Linked),
    (Look(1, 1, 7), 522, 0x802207, MIDDLE, Linked),
    (Unlink(0, 1, 7), 522, 0, None, Unlinked(0)),
];

const IN_LIMBO: [Moment; 8] = [
    (Mark(0, 2), 1542, 256, None, Unlinked(0)),
    (Turn(0), 2062, 1, None, Unlinked(0)),
    (Sample(0, 0), 2060, 2, None, Unlinked(0)),
    (Sample(0, 1), 2061, 1, None, Unlinked(0)),
    (Give(0, &[(2, 2, 1)], &[], &[]), 2062, 0, None, Limbo),
    (Look(1, 2, 0), 1030, 0, MIDDLE, Limbo),
    (Turn(0), 2062, 1, None, Limbo),
    (Sample(0, 1), 2061, 1, None, Limbo),
];

const NOT_YET: [(Step, bool); 3] = [
    (Give(0, &[], &[2], &[2]), false),
    (Leave(1), true),
    (Give(0, &[], &[2], &[2]), false),
];

// It is inside again, and stands elsewhere: row 2 is swept and granted in one give.
const USED_AGAIN: [Moment; 7] = [
    (Enter(1), 2061, 3, DIRECTORY, Limbo),
    (Sample(0, 1), 2061, 3, None, Limbo),
    (Give(0, &[], &[2], &[2]), 2062, 0, None, Hand(0)),
    (Position(0, 2, 0, 3, 8), 1543, 4099, None, Hand(0)),
    (Generation(0, 2, 3), 1544, 3, None, Hand(0)),
    (Open(0, 2), 1542, 1, None, Hand(0)),
    (Entry(0, 1, 8, 0xc02207), 523, 0xc02207, None, Linked),
];

#[test]
fn a_row_used_again(rt: HostRuntime) -> Result<(), Fail> {
    let mut core = Machine::boot(rt.alloc(), 4, 2, 4)?;
    watch(&rt, rt.alloc(), &mut core, 2, &A_READER)?;
    watch(&rt, rt.alloc(), &mut core, 2, &IN_LIMBO)?;
    take(&rt, rt.alloc(), &mut core, &NOT_YET)?;
    watch(&rt, rt.alloc(), &mut core, 2, &USED_AGAIN)?;
    Ok(())
}
