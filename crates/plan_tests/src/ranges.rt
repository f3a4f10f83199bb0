use crate::references::has_no_references;
use corten_base::{Call, Perm, Reply, SpaceId};
use file_shelf::Shelf;
use machine_plan::Kit;
use range_cursor::plan;
use row_cells::{Cell, Cells};
use std::alloc::{AllocError, Global};
use table_place::Place;
use tree_lock::{Held, HeldRow};

/// The bytes of a page.
const PAGE: u64 = 4096;

/// The first address of an arena, at which one page is mapped.
const FIRST: u64 = 0x80_0000_0000;

const READ: Perm = Perm {
    read: true,
    write: false,
    exec: false,
};

const WRITE: Perm = Perm {
    read: true,
    write: true,
    exec: false,
};

/// What a plan answers by itself.
#[derive(Clone, Copy, PartialEq, Eq, Debug)]
enum Told {
    /// Nothing: the book has to be asked.
    Nothing,
    /// The arguments are wrong.
    Wrong,
    /// The page at this address is not mapped.
    Hole(u64),
    /// Something else, or it was not asked for a plan.
    Other,
}

/// New permissions for so many bytes from an address on, and what is told.
const CASES: [(u64, u64, Told); 6] = [
    (FIRST, PAGE, Told::Nothing),
    (FIRST, 1, Told::Nothing),
    (FIRST, 2 * PAGE, Told::Hole(FIRST + PAGE)),
    (FIRST + PAGE, PAGE, Told::Hole(FIRST + PAGE)),
    (FIRST, 0, Told::Wrong),
    (FIRST + 1, PAGE, Told::Wrong),
];

/// The row of level 1 in which one page is mapped.
fn one_page(alloc: Global) -> Result<Held<Cells>, AllocError> {
    let mut cells = Cells::new(alloc)?;
    let _ = cells.replace(0, Cell::Anon(WRITE));
    let place = Place {
        space: 0,
        level: 1,
        prefix: FIRST / PAGE / 512,
    };
    let mut held = Held::new(alloc, 1)?;
    held.insert(HeldRow {
        row: 4,
        place,
        generation: 0,
        content: cells,
    });
    Ok(held)
}

/// What the plan of new permissions answers.
fn protected(alloc: Global, at: u64, len: u64) -> Result<Told, AllocError> {
    let mut held = one_page(alloc)?;
    let mut kit = Kit::new(alloc)?;
    let Some(space) = SpaceId::new(0) else {
        return Ok(Told::Other);
    };
    if !has_no_references(&held) {
        return Ok(Told::Other);
    }
    let call = Call::Protect {
        space,
        at,
        len,
        perm: READ,
    };
    plan(&mut held, 0, &call, 4, &Shelf::new(alloc), &mut kit);
    match kit.early {
        None => Ok(Told::Nothing),
        Some(Reply::Hole(address)) => Ok(Told::Hole(address)),
        Some(Reply::Einval) => Ok(Told::Wrong),
        Some(_) => Ok(Told::Other),
    }
}

#[test]
fn protect_over_a_hole(rt: HostRuntime) -> Result<(), AllocError> {
    for (at, len, answer) in CASES {
        assert_eq!(rt; protected(rt.alloc(), at, len)?, answer);
    }
    Ok(())
}
