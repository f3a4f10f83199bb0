use row_cells::{Cell, Cells};
use row_layout::{FreeRows, Layout, Limbo, Sampled};
use std::alloc::AllocError;

fn unblocked(row: u32) -> Sampled {
    Sampled {
        row,
        samples: [0; 8],
        blocker: 255,
        blocked_at: 0,
    }
}

#[test]
fn rows_in_limbo_keep_their_order(rt: HostRuntime) -> Result<(), AllocError> {
    let mut limbo = Limbo::new(rt.alloc(), 2)?;
    limbo.push(unblocked(4));
    limbo.push(unblocked(3));
    limbo.set_blocker(1, 1, 7);
    assert_eq!(rt; limbo.remove(0).row, 4);
    let last = limbo.list()[0];
    assert_eq!(rt; (last.row, last.blocker, last.blocked_at), (3, 1, 7));
    Ok(())
}

#[test]
fn the_least_free_row_comes_first(rt: HostRuntime) -> Result<(), AllocError> {
    let mut free = FreeRows::new(rt.alloc(), 4)?;
    free.put(3);
    free.put(2);
    assert_eq!(rt; free.count(), 2);
    assert_eq!(rt; free.take(), Some(2));
    Ok(())
}

#[test]
fn places_of_the_greatest_layout(rt: HostRuntime) {
    let layout = Layout {
        rows: 1024,
        passes: 8,
        levels: 5,
    };
    assert_eq!(rt; layout.entry(1, 511), 1026);
    assert_eq!(rt;
        (layout.lock(1), layout.position(1), layout.generation(1)),
        (1027, 1028, 1029)
    );
    assert_eq!(rt; (layout.epoch(0), layout.book()), (527_360, 527_368));
}

#[test]
fn used_cells_are_counted(rt: HostRuntime) -> Result<(), AllocError> {
    let mut cells = Cells::new(rt.alloc())?;
    assert!(rt; !cells.replace(511, Cell::Table).is_used());
    assert!(rt; matches!(cells.get(511), Cell::Table));
    assert_eq!(rt; cells.used(), 1);
    Ok(())
}
