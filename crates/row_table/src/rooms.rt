//! Room for what a table is closed into, made with the table.
ghost use Rattle.std.specs.Prelude.{◌≡◌, IfOk};
ghost use Rattle.row_table.specs.Rooms.{IsRoom};
ghost use Rattle.row_layout.specs.Places.{word_count};

use atomic_table::{Table, TableRule};
use row_layout::Layout;
use std::alloc::{AllocError, Global};

/// Empty vectors with room for the words, the epoch words and the rows.
#[derive(Drop)]
pub struct Rooms<R: Drop> {
    pub words: Vec<u64>,
    pub epochs: Vec<u64>,
    pub rows: Vec<R>,
}

pub struct Stored;

impl<R: Drop> TableRule<Rooms<R>, (), Layout> for Stored {
    ghost use Rattle.row_table.specs.Rooms.{HasRooms};

    ghost holds = { HasRooms };

    ghost first = { λ _. tt };
}

/// The vectors in a slot, so that threads may share what has them.
pub type Store<R> = Table<Rooms<R>, (), Layout, Stored, Global>;

fn made<R: Drop>(alloc: Global, layout: &Layout, count: usize) -> Result<Rooms<R>, AllocError>
    requires { count ≡ word_count layout.now }
    ensures { IfOk result (IsRoom layout.now) }
{
    Ok(Rooms {
        words: Vec::with_capacity(alloc, count)?,
        epochs: Vec::with_capacity(alloc, layout.passes as usize)?,
        rows: Vec::with_capacity(alloc, layout.rows as usize)?,
    })
}

pub fn store<R: Drop>(alloc: Global, layout: &Layout, count: usize) -> Result<Store<R>, AllocError>
    requires { count ≡ word_count layout.now }
    ensures { IfOk result (λ s. (s.shared.table_id.slots ≡ 1) × (s.shared.key ≡ layout.now)) }
{
    let rooms = made::<R>(alloc, layout, count)?;
    let mut slots = Vec::with_capacity(alloc, 1)?;
    slots.push(rooms)?;
    match Table::new(alloc, &[0], slots, layout) {
        Ok((store, _)) => Ok(store),
        Err(_) => Err(AllocError),
    }
}

pub fn unstore<R: Drop>(store: Store<R>) -> Rooms<R>
    requires { store.shared.table_id.slots ≡ 1 }
    ensures { IsRoom store.shared.key result }
{
    let mut closed = store.close();
    let rooms = closed.take(0);
    closed.free();
    rooms
}
