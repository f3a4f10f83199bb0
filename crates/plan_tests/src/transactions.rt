use crate::references::has_no_references;
use corten_base::{AddFault, Backing, Call, OpList, Perm, Reply, SpaceId, TxnOp, Why};
use file_shelf::Shelf;
use machine_plan::Kit;
use range_cursor::plan;
use row_cells::{Cell, Cells};
use std::alloc::{AllocError, Global};
use table_place::Place;
use tree_lock::{Held, HeldRow};

/// The bytes of a page.
const PAGE: u64 = 4096;

/// What pages may be read only.
const READ: Perm = Perm {
    read: true,
    write: false,
    exec: false,
};

/// Takes page 17 away.
const WITHOUT_17: TxnOp = TxnOp::Unmap {
    at: 17 * PAGE,
    len: PAGE,
};

/// Maps page 17, which may not be there.
const FRESH_17: TxnOp = TxnOp::Map {
    at: 17 * PAGE,
    fresh: true,
    len: PAGE,
    perm: READ,
    backing: Backing::Zero,
};

/// Maps the pages 20 and 21.
const MORE: TxnOp = TxnOp::Map {
    at: 20 * PAGE,
    fresh: false,
    len: 2 * PAGE,
    perm: READ,
    backing: Backing::Zero,
};

/// Maps the page behind the transaction's range.
const BEHIND: TxnOp = TxnOp::Map {
    at: 416 * PAGE,
    fresh: false,
    len: PAGE,
    perm: READ,
    backing: Backing::Zero,
};

/// Protects the pages 17 to 19, or 17 to 21.
const THREE: TxnOp = TxnOp::Protect {
    at: 17 * PAGE,
    len: 3 * PAGE,
    perm: READ,
};

const FIVE: TxnOp = TxnOp::Protect {
    at: 17 * PAGE,
    len: 5 * PAGE,
    perm: READ,
};

/// What is told where the plan was not asked for.
const UNASKED: Option<(u8, Why)> = Some((0, Why::Einval));

/// Operations, and which of them is refused first and why.
const CASES: [(&[TxnOp], Option<(u8, Why)>); 9] = [
    (&[FRESH_17], Some((1, Why::Exists(17 * PAGE)))),
    (&[WITHOUT_17, FRESH_17], None),
    (
        &[WITHOUT_17, FRESH_17, FRESH_17],
        Some((3, Why::Exists(17 * PAGE))),
    ),
    (&[THREE], None),
    (&[WITHOUT_17, THREE], Some((2, Why::Hole(17 * PAGE)))),
    (&[FIVE], Some((1, Why::Hole(20 * PAGE)))),
    (&[MORE, FIVE], None),
    (&[MORE, WITHOUT_17, FIVE], Some((3, Why::Hole(17 * PAGE)))),
    (&[THREE, BEHIND], Some((2, Why::Einval))),
];

/// A row of level 1 whose pages 17, 18 and 19 have zeros.
fn three_pages(alloc: Global) -> Result<Held<Cells>, AllocError> {
    let mut cells = Cells::new(alloc)?;
    for index in 17..20 {
        let _ = cells.replace(index, Cell::Anon(READ));
    }
    let place = Place {
        space: 0,
        level: 1,
        prefix: 0,
    };
    let mut held = Held::new(alloc, 1)?;
    held.insert(HeldRow {
        row: 2,
        place,
        generation: 0,
        content: cells,
    });
    Ok(held)
}

/// Operations as the list of a call.
fn listed(alloc: Global, ops: &[TxnOp]) -> Result<OpList, AddFault> {
    let mut list = OpList::new(alloc);
    for op in ops {
        list.push(*op)?;
    }
    Ok(list)
}

/// The operation of a transaction in the pages 16 to 415 that its plan refuses first.
fn refused(alloc: Global, ops: &[TxnOp]) -> Result<Option<(u8, Why)>, AllocError> {
    let mut held = three_pages(alloc)?;
    let mut kit = Kit::new(alloc)?;
    let Some(space) = SpaceId::new(0) else {
        return Ok(UNASKED);
    };
    let Ok(ops) = listed(alloc, ops) else {
        return Ok(UNASKED);
    };
    if !has_no_references(&held) {
        return Ok(UNASKED);
    }
    let call = Call::Txn {
        space,
        at: 16 * PAGE,
        len: 400 * PAGE,
        ops,
    };
    plan(&mut held, 0, &call, 4, &Shelf::new(alloc), &mut kit);
    match kit.early {
        None => Ok(None),
        Some(Reply::Undone(place, why)) => Ok(Some((place, why))),
        Some(_) => Ok(UNASKED),
    }
}

#[test]
fn an_operation_finds_what_those_before_it_leave(rt: HostRuntime) -> Result<(), AllocError> {
    for (ops, told) in CASES {
        assert_eq!(rt; refused(rt.alloc(), ops)?, told);
    }
    Ok(())
}
