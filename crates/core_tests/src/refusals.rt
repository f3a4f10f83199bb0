//! Each condition of each kind of step, failing once, among steps that are allowed.
use crate::steps::Step::{
    Enter, Entry, Generation, Give, Grab, Leave, Look, Mark, Open, Position, Release, Sample, Turn,
    Unlink,
};
use crate::steps::{Machine, Step, take};
use std::test::Fail;

// Pass 2 of two passes.
const NO_SUCH_PASS: [(Step, bool); 14] = [
    (Enter(2), false),
    (Leave(2), false),
    (Look(2, 0, 0), false),
    (Grab(2, 0), false),
    (Release(2, 0), false),
    (Turn(2), false),
    (Give(2, &[], &[], &[]), false),
    (Entry(2, 0, 5, 0), false),
    (Unlink(2, 0, 0), false),
    (Mark(2, 0), false),
    (Position(2, 2, 0, 1, 0), false),
    (Generation(2, 2, 1), false),
    (Open(2, 2), false),
    (Sample(2, 0), false),
];

const WALKS: [(Step, bool); 17] = [
    (Leave(0), false),
    (Look(0, 0, 0), false),
    (Sample(0, 1), true),
    (Sample(0, 2), false),
    (Enter(0), true),
    (Enter(0), false),
    (Sample(0, 1), false),
    (Look(0, 1, 0), false),
    (Look(0, 3, 0), false),
    (Look(0, 0, 512), false),
    (Grab(0, 0), true),
    (Look(0, 0, 0), true),
    (Look(0, 0, 0), true),
    (Release(0, 0), true),
    (Look(0, 0, 0), false),
    (Leave(0), true),
    (Leave(0), false),
];

const LOCKS: [(Step, bool); 18] = [
    (Grab(0, 0), false),
    (Release(0, 0), false),
    (Enter(0), true),
    (Grab(0, 1), false),
    (Grab(0, 3), false),
    (Grab(0, 0), true),
    (Grab(0, 2), false),
    (Grab(0, 1), true),
    (Grab(0, 1), true),
    (Release(1, 0), false),
    (Enter(1), true),
    (Grab(1, 0), true),
    (Release(1, 0), false),
    (Grab(1, 1), false),
    (Release(0, 2), false),
    (Release(0, 0), true),
    (Release(0, 0), false),
    (Release(0, 1), true),
];

#[test]
fn walks_and_locks(rt: HostRuntime) -> Result<(), Fail> {
    let mut core = Machine::boot(rt.alloc(), 3, 2, 4)?;
    take(&rt, rt.alloc(), &mut core, &NO_SUCH_PASS)?;
    take(&rt, rt.alloc(), &mut core, &WALKS)?;
    take(&rt, rt.alloc(), &mut core, &LOCKS)?;
    Ok(())
}

// Rows 2 and 3 of five.
const TAKES: [(Step, bool); 15] = [
    (Give(0, &[], &[], &[2]), false),
    (Turn(0), true),
    (Turn(0), false),
    (Turn(1), true),
    (Give(1, &[], &[], &[2]), false),
    (Give(0, &[], &[], &[2, 2]), false),
    (Give(0, &[], &[], &[2, 1]), false),
    (Give(0, &[], &[], &[5]), false),
    (Give(0, &[(1, 0, 0)], &[], &[]), false),
    (Give(0, &[], &[3], &[]), false),
    (Give(0, &[], &[], &[3, 2]), true),
    (Turn(0), true),
    (Give(0, &[], &[], &[2]), false),
    (Give(0, &[(2, 0, 0)], &[], &[]), false),
    (Give(0, &[], &[], &[]), true),
];

// Row 2 becomes the root of space 5 and row 3 that of space 6.
const LINKS_TWO: [(Step, bool); 10] = [
    (Position(0, 2, 5, 4, 0), true),
    (Generation(0, 2, 2), true),
    (Open(0, 2), true),
    (Position(0, 3, 6, 4, 0), true),
    (Generation(0, 3, 3), true),
    (Open(0, 3), true),
    (Enter(0), true),
    (Grab(0, 0), true),
    (Entry(0, 0, 5, 0x802207), true),
    (Entry(0, 0, 6, 0xc03207), true),
];

// Row 2 is not marked, then not sampled, then sampled of pass 0 alone, then of both.
const PUTS: [(Step, bool); 24] = [
    (Unlink(0, 0, 5), true),
    (Leave(0), true),
    (Sample(0, 0), true),
    (Sample(0, 1), true),
    (Turn(0), true),
    (Give(0, &[(2, 2, 0)], &[], &[]), false),
    (Mark(0, 2), true),
    (Give(0, &[(2, 2, 0)], &[], &[]), false),
    (Sample(0, 0), true),
    (Give(0, &[(2, 2, 0)], &[], &[]), false),
    (Sample(0, 1), true),
    (Give(0, &[(2, 2, 0), (2, 2, 0)], &[], &[]), false),
    (Give(0, &[(2, 2, 0), (3, 2, 0)], &[], &[]), false),
    (Give(0, &[(2, 2, 0)], &[2], &[]), false),
    (Give(0, &[(2, 1, 0)], &[], &[]), false),
    (Give(0, &[(2, 3, 0)], &[], &[]), false),
    (Give(0, &[(2, 2, 1)], &[], &[]), false),
    (Give(0, &[], &[], &[]), true),
    (Turn(1), true),
    (Give(1, &[(2, 2, 0)], &[], &[]), false),
    (Give(1, &[], &[], &[]), true),
    (Turn(0), true),
    (Give(0, &[(2, 2, 0)], &[], &[4]), true),
    (Turn(0), true),
];

// Row 2 is in limbo, with numbers of passes that were outside.
const SWEEPS: [(Step, bool); 10] = [
    (Give(0, &[(2, 2, 0)], &[], &[]), false),
    (Give(0, &[], &[], &[2]), false),
    (Give(0, &[], &[3], &[]), false),
    (Give(0, &[], &[4], &[]), false),
    (Give(0, &[], &[2, 2], &[]), false),
    (Give(0, &[], &[2], &[2, 2]), false),
    (Give(1, &[], &[2], &[]), false),
    (Give(0, &[], &[2], &[2]), true),
    (Turn(0), true),
    (Give(0, &[], &[2], &[]), false),
];

#[test]
fn gives(rt: HostRuntime) -> Result<(), Fail> {
    let mut core = Machine::boot(rt.alloc(), 5, 2, 4)?;
    take(&rt, rt.alloc(), &mut core, &TAKES)?;
    take(&rt, rt.alloc(), &mut core, &LINKS_TWO)?;
    take(&rt, rt.alloc(), &mut core, &PUTS)?;
    take(&rt, rt.alloc(), &mut core, &SWEEPS)?;
    Ok(())
}

// Row 2 of four: a place is one of a table of 64 spaces, four levels and 512 entries each.
const POSITIONS: [(Step, bool); 14] = [
    (Position(0, 2, 5, 4, 0), false),
    (Generation(0, 2, 1), false),
    (Open(0, 2), false),
    (Turn(0), true),
    (Give(0, &[], &[], &[2]), true),
    (Position(1, 2, 5, 4, 0), false),
    (Position(0, 3, 5, 4, 0), false),
    (Position(0, 1, 5, 4, 0), false),
    (Position(0, 2, 64, 4, 0), false),
    (Position(0, 2, 5, 0, 0), false),
    (Position(0, 2, 5, 5, 0), false),
    (Position(0, 2, 5, 4, 1), false),
    (Position(0, 2, 5, 1, 134_217_728), false),
    (Position(0, 2, 63, 1, 134_217_727), true),
];

const OPENS: [(Step, bool); 17] = [
    (Open(0, 2), false),
    (Generation(0, 2, 0), false),
    (Generation(0, 2, 1), true),
    (Generation(0, 2, 1), false),
    (Open(1, 2), false),
    (Open(0, 2), true),
    (Open(0, 2), false),
    (Position(0, 2, 5, 4, 0), false),
    (Generation(0, 2, 2), false),
    (Release(0, 2), false),
    (Mark(0, 2), false),
    (Entry(0, 2, 0, 0), false),
    (Turn(0), true),
    (Give(0, &[], &[], &[3]), true),
    (Generation(0, 3, 1), true),
    (Open(0, 3), false),
    (Position(0, 3, 5, 4, 0), true),
];

#[test]
fn set_ups(rt: HostRuntime) -> Result<(), Fail> {
    let mut core = Machine::boot(rt.alloc(), 4, 2, 4)?;
    take(&rt, rt.alloc(), &mut core, &POSITIONS)?;
    take(&rt, rt.alloc(), &mut core, &OPENS)?;
    Ok(())
}

// Row 2 of six has the place of the root of space 5, and row 3 that of the root of space 6. Row 3 is not opened. Row 4 is with pass 1.
const HANDS: [(Step, bool); 13] = [
    (Turn(0), true),
    (Give(0, &[], &[], &[2, 3]), true),
    (Turn(1), true),
    (Give(1, &[], &[], &[4]), true),
    (Position(0, 2, 5, 4, 0), true),
    (Generation(0, 2, 2), true),
    (Open(0, 2), true),
    (Position(0, 3, 6, 4, 0), true),
    (Generation(0, 3, 3), true),
    (Position(1, 4, 7, 4, 0), true),
    (Generation(1, 4, 4), true),
    (Open(1, 4), true),
    (Enter(0), true),
];

const ENTRIES: [(Step, bool); 20] = [
    (Entry(0, 0, 5, 0), false),
    (Grab(0, 0), true),
    (Entry(1, 0, 5, 0), false),
    (Entry(0, 0, 512, 0), false),
    (Entry(0, 0, 0, 0), false),
    (Entry(0, 0, 5, 1), false),
    (Entry(0, 0, 5, 0x1005), false),
    (Entry(0, 0, 5, 0x401207), false),
    (Entry(0, 0, 6, 0xc03207), false),
    (Entry(0, 0, 7, 0x1004207), false),
    (Entry(0, 0, 6, 0x802207), false),
    (Entry(0, 0, 5, 0x402207), false),
    (Entry(0, 0, 5, 0x80220f), false),
    (Entry(0, 0, 5, 0), true),
    (Entry(0, 0, 5, 0x802207), true),
    (Entry(0, 0, 5, 0), false),
    (Entry(0, 0, 8, 0x802207), false),
    (Entry(0, 2, 0, 0x1005), false),
    (Entry(0, 2, 0, 0), true),
    (Release(0, 2), true),
];

#[test]
fn entries(rt: HostRuntime) -> Result<(), Fail> {
    let mut core = Machine::boot(rt.alloc(), 6, 2, 4)?;
    take(&rt, rt.alloc(), &mut core, &HANDS)?;
    take(&rt, rt.alloc(), &mut core, &ENTRIES)?;
    Ok(())
}

// Row 2 of four becomes the root of space 5, and row 3 is linked by its entry 1.
const LINKS_BELOW: [(Step, bool); 12] = [
    (Turn(0), true),
    (Give(0, &[], &[], &[2, 3]), true),
    (Position(0, 2, 5, 4, 0), true),
    (Generation(0, 2, 2), true),
    (Open(0, 2), true),
    (Position(0, 3, 5, 3, 1), true),
    (Generation(0, 3, 3), true),
    (Open(0, 3), true),
    (Enter(0), true),
    (Grab(0, 0), true),
    (Entry(0, 0, 5, 0x802207), true),
    (Entry(0, 2, 1, 0xc03207), true),
];

const UNLINKS: [(Step, bool); 18] = [
    (Unlink(0, 0, 5), false),
    (Unlink(0, 0, 512), false),
    (Unlink(0, 0, 1), false),
    (Unlink(0, 0, 0), false),
    (Unlink(0, 1, 0), false),
    (Unlink(1, 2, 1), false),
    (Mark(0, 3), false),
    (Unlink(0, 2, 1), true),
    (Unlink(0, 2, 1), false),
    (Mark(1, 3), false),
    (Release(0, 3), false),
    (Entry(0, 3, 0, 0), false),
    (Mark(0, 3), true),
    (Mark(0, 3), false),
    (Grab(0, 3), false),
    (Position(0, 3, 5, 3, 1), false),
    (Open(0, 3), false),
    (Unlink(0, 0, 5), true),
];

#[test]
fn unlinks(rt: HostRuntime) -> Result<(), Fail> {
    let mut core = Machine::boot(rt.alloc(), 4, 2, 4)?;
    take(&rt, rt.alloc(), &mut core, &LINKS_BELOW)?;
    take(&rt, rt.alloc(), &mut core, &UNLINKS)?;
    Ok(())
}
