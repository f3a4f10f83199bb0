//! Events written short, and the helpers that take them and compare.
ghost use Rattle.std.specs.Prelude.{◌≡◌, ◌≤◌, ◌+◌, ◌*◌};

use std::alloc::{AllocError, Global};
use std::process::Abort;
use std::test::Fail;
use walk_core::{Core, Event, Place, PutList, PutRow, RowList, RowState, SetPart, Stand};

/// A core, with the numbers of its rows, passes and words.
#[derive(Drop)]
pub(crate) struct Machine {
    core: Core,
    rows: u32,
    passes: u8,
    words: u32,
    ghost sizes: { (core.rows ≡ rows) × (core.count ≡ passes) },
    ghost all: { words ≡ 515 * rows + passes + 1 },
}

impl Machine {
    /// A core at its start.
    pub(crate) fn boot(
        alloc: Global,
        rows: u32,
        passes: u8,
        levels: u8,
    ) -> Result<Machine, AllocError>
        requires rows { (2 ≤ rows) × (rows ≤ 1024) }
        requires passes { (1 ≤ passes) × (passes ≤ 8) }
        requires levels { (4 ≤ levels) × (levels ≤ 5) }
    {
        Ok(Machine {
            core: Core::boot(alloc, rows, passes, levels)?,
            rows,
            passes,
            words: 515 * rows + u32::from(passes) + 1,
        })
    }

    fn step(&mut self, event: &Event) -> bool {
        self.core.step(event)
    }

    fn word(&self, place: u32) -> Option<u64> {
        if place < self.words {
            Some(self.core.word(place))
        } else {
            None
        }
    }

    pub(crate) fn stand(&self, pass: u8) -> Option<Stand> {
        if pass < self.passes {
            self.core.stand(pass)
        } else {
            None
        }
    }

    fn state(&self, row: u32) -> Option<RowState> {
        if row < self.rows {
            Some(self.core.row_state(row))
        } else {
            None
        }
    }
}

/// A row that is put, with the numbers of two passes.
pub(crate) type Put = (u32, u64, u64);

/// An event, written short: the pass, and then the row.
#[derive(Clone, Copy)]
pub(crate) enum Step {
    Enter(u8),
    Leave(u8),
    Look(u8, u32, u32),
    Grab(u8, u32),
    Release(u8, u32),
    Turn(u8),
    /// With the rows that are put, swept and taken.
    Give(u8, &'static [Put], &'static [u32], &'static [u32]),
    /// With the index and the word.
    Entry(u8, u32, u32, u64),
    Unlink(u8, u32, u32),
    Mark(u8, u32),
    /// With the space, the level and the prefix.
    Position(u8, u32, u8, u8, u64),
    Generation(u8, u32, u64),
    Open(u8, u32),
    Sample(u8, u8),
}

/// The pass that takes the step.
fn pass_of(step: Step) -> u8 {
    match step {
        Step::Enter(pass) => pass,
        Step::Leave(pass) => pass,
        Step::Look(pass, _, _) => pass,
        Step::Grab(pass, _) => pass,
        Step::Release(pass, _) => pass,
        Step::Turn(pass) => pass,
        Step::Give(pass, _, _, _) => pass,
        Step::Entry(pass, _, _, _) => pass,
        Step::Unlink(pass, _, _) => pass,
        Step::Mark(pass, _) => pass,
        Step::Position(pass, _, _, _, _) => pass,
        Step::Generation(pass, _, _) => pass,
        Step::Open(pass, _) => pass,
        Step::Sample(pass, _) => pass,
    }
}

/// The event that a step stands for.
fn event_of(alloc: Global, step: Step) -> Result<Event, AllocError> {
    Ok(match step {
        Step::Enter(pass) => Event::Enter { pass },
        Step::Leave(pass) => Event::Leave { pass },
        Step::Look(pass, row, index) => Event::Look { pass, row, index },
        Step::Grab(pass, row) => Event::Grab { pass, row },
        Step::Release(pass, row) => Event::Release { pass, row },
        Step::Turn(pass) => Event::Turn { pass },
        Step::Give(pass, put, swept, taken) => return give(alloc, pass, put, swept, taken),
        Step::Entry(pass, row, index, word) => Event::SetEntry {
            pass,
            row,
            index,
            word,
        },
        Step::Unlink(pass, row, index) => Event::Unlink { pass, row, index },
        Step::Mark(pass, row) => Event::MarkStale { pass, row },
        Step::Position(pass, row, space, level, prefix) => set_up(
            pass,
            row,
            SetPart::Position(Place {
                space,
                level,
                prefix,
            }),
        ),
        Step::Generation(pass, row, number) => set_up(pass, row, SetPart::Generation(number)),
        Step::Open(pass, row) => Event::OpenRow { pass, row },
        Step::Sample(pass, other) => Event::Sample { pass, other },
    })
}

fn set_up(pass: u8, row: u32, part: SetPart) -> Event {
    Event::SetUp { pass, row, part }
}

fn give(
    alloc: Global,
    pass: u8,
    put: &[Put],
    swept: &[u32],
    taken: &[u32],
) -> Result<Event, AllocError> {
    Ok(Event::Give {
        pass,
        put: PutList::of(put_rows(alloc, put)?),
        swept: RowList::of(Vec::from_slice(alloc, swept)?),
        taken: RowList::of(Vec::from_slice(alloc, taken)?),
    })
}

fn put_rows(alloc: Global, rows: &[Put]) -> Result<Vec<PutRow>, AllocError> {
    let mut put = Vec::new(alloc);
    for (row, first, second) in rows {
        put.push(PutRow {
            row: *row,
            samples: [*first, *second, 0, 0, 0, 0, 0, 0],
        })?;
    }
    Ok(put)
}

/// Takes the steps and compares each answer.
pub(crate) fn take(
    rt: &impl Abort,
    alloc: Global,
    core: &mut Machine,
    steps: &[(Step, bool)],
) -> Result<(), AllocError> {
    for (number, (step, wanted)) in steps.iter().enumerate() {
        let event = event_of(alloc, *step)?;
        assert_eq!(rt; core.step(&event), *wanted, "step {number}");
    }
    Ok(())
}

/// A step that is allowed. After it a word is seen at a place, its pass stands there, and the row has become this.
pub(crate) type Moment = (Step, u32, u64, Option<Stand>, RowState);

/// Takes the steps, and compares what is seen after each.
pub(crate) fn watch(
    rt: &impl Abort,
    alloc: Global,
    core: &mut Machine,
    row: u32,
    moments: &[Moment],
) -> Result<(), AllocError> {
    for (number, (step, place, word, stand, state)) in moments.iter().enumerate() {
        let event = event_of(alloc, *step)?;
        assert!(rt; core.step(&event), "step {number}");
        assert_eq!(rt; core.word(*place), Some(*word), "the word after {number}");
        assert_eq!(rt;
            core.stand(pass_of(*step)),
            *stand,
            "the stand after {number}"
        );
        assert_eq!(rt; core.state(row), Some(*state), "the state after {number}");
    }
    Ok(())
}

pub(crate) const DIRECTORY: Option<Stand> = Some(Stand {
    row: 0,
    place: Place {
        space: 0,
        level: 6,
        prefix: 0,
    },
    generation: 0,
});

pub(crate) const ROOT: Option<Stand> = Some(Stand {
    row: 1,
    place: Place {
        space: 0,
        level: 4,
        prefix: 0,
    },
    generation: 1,
});

const FIRST_STEPS: [(Step, bool); 3] = [
    (Step::Enter(0), true),
    (Step::Enter(0), false),
    (Step::Look(0, 0, 0), true),
];

const NEXT_STEPS: [(Step, bool); 4] = [
    (Step::Grab(0, 1), true),
    (Step::Leave(0), true),
    (Step::Release(0, 1), true),
    (Step::Release(0, 1), false),
];

#[test]
fn core_first_steps(rt: HostRuntime) -> Result<(), Fail> {
    let mut core = Machine::boot(rt.alloc(), 3, 1, 4)?;
    take(&rt, rt.alloc(), &mut core, &FIRST_STEPS)?;
    assert_eq!(rt; core.stand(0), ROOT);
    take(&rt, rt.alloc(), &mut core, &NEXT_STEPS)?;
    assert_eq!(rt; core.stand(0), None);
    Ok(())
}
