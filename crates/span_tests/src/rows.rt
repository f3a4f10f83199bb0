ghost use Rattle.std.specs.Prelude.{◌<◌, ◌^◌};

use corten_base::{Backing, Perm, Status};
use held_spans::{Near, first_hole, first_mapped, run_at, span_at};
use row_cells::{Cell, Cells};
use std::alloc::{AllocError, Global};
use table_place::Place;
use tree_lock::{Held, HeldRow};

const READ: Perm = Perm {
    read: true,
    write: false,
    exec: false,
};

/// A list of one row, whose span begins at page 0.
fn listed(alloc: Global, level: u8, content: Cells) -> Result<Held<Cells>, AllocError>
    requires { level < 2 ^ 3 }
{
    let place = Place {
        space: 0,
        level,
        prefix: 0,
    };
    let mut held = Held::new(alloc, 1)?;
    held.insert(HeldRow {
        row: 2,
        place,
        generation: 0,
        content,
    });
    Ok(held)
}

/// A cell of a file's page.
fn file_page(index: u64) -> Cell {
    Cell::File {
        perm: READ,
        file: 1,
        index,
    }
}

/// A row of level 1: pages 17 to 19 have zeros and two pages of a file that go on from one another.
fn pages(alloc: Global) -> Result<Cells, AllocError> {
    let mut cells = Cells::new(alloc)?;
    let _ = cells.replace(17, Cell::Anon(READ));
    let _ = cells.replace(18, file_page(7));
    let _ = cells.replace(19, file_page(8));
    Ok(cells)
}

/// A row of level 2: pages 512 to 1023 are a file's.
fn marks(alloc: Global) -> Result<Cells, AllocError> {
    let mut cells = Cells::new(alloc)?;
    let _ = cells.replace(1, file_page(40));
    Ok(cells)
}

/// The first page of a page's span, how many pages it has, and the number of the file's page.
fn told(held: &Held<Cells>, page: u64) -> (u64, u64, Option<u64>) {
    let span = span_at(held, page);
    match span.status {
        Status::File { index, .. } => (span.first, span.count, Some(index)),
        _ => (span.first, span.count, None),
    }
}

/// The least page of a range that is free, and the least that is mapped.
fn firsts(held: &Held<Cells>, first: u64, count: u64) -> (Option<u64>, Option<u64>)
    requires { first < 2 ^ 40 }
{
    if count >= 1 << 40 {
        return (None, None);
    }
    (
        first_hole(held, first, count),
        first_mapped(held, first, count),
    )
}

/// How many pages go on from a page before another, and what the first of them came from.
fn run(held: &Held<Cells>, page: u64, end: u64) -> (u64, Backing) {
    if page >= end {
        return (0, Backing::Zero);
    }
    let run = run_at(held, &mut Near::new(), page, end);
    (run.count, run.origin)
}

#[test]
fn a_row_of_pages(rt: HostRuntime) -> Result<(), AllocError> {
    let held = listed(rt.alloc(), 1, pages(rt.alloc())?)?;
    assert_eq!(rt; told(&held, 19), (19, 1, Some(8)));
    assert_eq!(rt; firsts(&held, 17, 4), (Some(20), Some(17)));
    assert_eq!(rt; firsts(&held, 0, 17), (Some(0), None));
    assert_eq!(rt;
        run(&held, 18, 30),
        (2, Backing::File { file: 1, index: 7 })
    );
    Ok(())
}

#[test]
fn a_row_with_a_mark(rt: HostRuntime) -> Result<(), AllocError> {
    let held = listed(rt.alloc(), 2, marks(rt.alloc())?)?;
    assert_eq!(rt; told(&held, 700), (512, 512, Some(40)));
    assert_eq!(rt; firsts(&held, 600, 1000), (Some(1024), Some(600)));
    assert_eq!(rt;
        run(&held, 600, 2000),
        (
            424,
            Backing::File {
                file: 1,
                index: 128
            }
        )
    );
    Ok(())
}
