//! Callers that link new rows. They rely on the public clauses, and on a lemma on their words: an entry that is no link is vacant.
ghost use Rattle.std.specs.Prelude.{◌≡◌, ◌<◌, ◌^◌, MatchResult};
ghost use Rattle.walk_core.specs.Words as words;
ghost use Rattle.row_table.specs.Passes.{view_of, table_of, IsPassOf};
ghost use Rattle.row_uses.specs.Sown.{IsLacking, MaySow, SameSeeds, Draws, Sows, MaySowBoth, DrawsBoth, SowsBoth};

use row_table::{Iron, Pass, Plan, Turned};
use table_place::Place;
use walk_core::PutRow;

/// A small plan: a book that lists positions, and rows that hold whether their position is listed.
pub struct Field;

impl Plan for Field {
    ghost use Rattle.row_uses.specs.Sown.{sown, lawful};

    type Row = bool;

    type Book = Seeds;

    type Kit = ();

    type Entry = ();

    ghost meaning = { sown };

    ghost lawful = { lawful };
}

/// A book that lists positions.
#[derive(Drop)]
pub struct Seeds {
    /// The free rows.
    pub free: Vec<u32>,
    /// The rows in limbo.
    pub limbo: Vec<PutRow>,
    /// The next generation.
    pub next: u64,
    /// The listed positions.
    pub listed: Vec<Place>,
}

/// Where a row is to be linked.
#[derive(Clone, Copy)]
pub struct Bed {
    /// The entry.
    pub index: u32,
    /// The position below it.
    pub place: Place,
}

/// What a book lacks for new rows.
#[derive(Debug, PartialEq, Drop)]
pub enum Lack {
    /// The free rows are at an end.
    Rows,
    /// The generations are at an end.
    Generations,
    /// The list of positions has no room.
    Memory,
}

/// Why nothing was sown.
#[derive(Debug, PartialEq, Drop)]
pub enum Unsown {
    /// This pass has the book.
    Busy(u8),
    /// The book lacks this.
    Lacks(Lack),
}

// The entry word that links a row.
#[tactic(auto, unfolding(walk_core::specs::Words::link_word))]
fn link_word(row: u32, generation: u64) -> u64
    requires { (row < 1024) × (generation < 2 ^ 30) }
    ensures { result ≡ words.link_word row generation }
{
    519 + 4096 * u64::from(row) + 4_194_304 * generation
}

// Takes a free row and a generation for it, and lists the position.
fn draw(book: &mut Seeds, place: Place) -> Result<(u32, u64), Lack>
    ensures { MatchResult result (λ r. Draws book.old place r.0 r.1 book.new) (λ lack. IsLacking 1 lack book.old × SameSeeds book.old book.new) }
{
    if book.free.is_empty() {
        return Err(Lack::Rows);
    }
    if book.next >= 1 << 30 {
        return Err(Lack::Generations);
    }
    let Ok(()) = book.listed.push(place) else {
        return Err(Lack::Memory);
    };
    let Some(row) = book.free.pop() else {
        unreachable!()
    };
    let generation = book.next;
    book.next += 1;
    Ok((row, generation))
}

/// Links a new row at an entry of the only row that the pass holds, and lists its position. Where the book lacks something, it is
/// given back as it was.
pub fn sow(
    iron: &Iron<Field>,
    pass: &mut Pass<Field>,
    row: u32,
    index: u32,
    place: Place,
) -> Result<u32, Unsown>
    requires table { IsPassOf iron.now pass.old }
    requires may { MaySow (view_of pass.old) row index place }
    ensures table { table_of pass.new ≡ table_of pass.old }
    ensures sows { Sows (view_of pass.old) row index place result (view_of pass.new) }
{
    let few = iron.layout().rows <= 1024;
    prove!(few);
    let mut book = match pass.turn(iron) {
        Turned::Got(book) => book,
        Turned::Held(holder) => return Err(Unsown::Busy(holder)),
    };
    let drawn = draw(&mut book, place);
    pass.give(iron, book);
    let (child, generation) = match drawn {
        Ok(one) => one,
        Err(lack) => return Err(Unsown::Lacks(lack)),
    };
    pass.set_up(iron, child, place, generation);
    let _ = pass.open_row(iron, child);
    let word = link_word(child, generation);
    pass.set_entry(iron, row, index, word);
    pass.release(iron, child, true);
    Ok(child)
}

// Takes two free rows and generations for them, and lists the positions.
fn draw_both(
    book: &mut Seeds,
    first: Place,
    second: Place,
) -> Result<((u32, u64), (u32, u64)), Lack>
    ensures { MatchResult result (λ r. DrawsBoth book.old first second r.0 r.1 book.new) (λ lack. IsLacking 2 lack book.old × SameSeeds book.old book.new) }
{
    if book.free.len() < 2 {
        return Err(Lack::Rows);
    }
    if book.next >= (1 << 30) - 1 {
        return Err(Lack::Generations);
    }
    let Ok(()) = book.listed.reserve(2) else {
        return Err(Lack::Memory);
    };
    book.listed.push_reserved(first);
    book.listed.push_reserved(second);
    let (Some(one), Some(two)) = (book.free.pop(), book.free.pop()) else {
        unreachable!()
    };
    let generation = book.next;
    book.next += 2;
    Ok(((one, generation), (two, generation + 1)))
}

/// Links two new rows at entries of the only row that the pass holds, with one hold of the book, and lists their positions. Where the
/// book lacks something, it is given back as it was.
pub fn sow_both(
    iron: &Iron<Field>,
    pass: &mut Pass<Field>,
    row: u32,
    first: Bed,
    second: Bed,
) -> Result<(u32, u32), Unsown>
    requires table { IsPassOf iron.now pass.old }
    requires may { MaySowBoth (view_of pass.old) row first second }
    ensures table { table_of pass.new ≡ table_of pass.old }
    ensures sows { SowsBoth (view_of pass.old) row first second result (view_of pass.new) }
{
    let few = iron.layout().rows <= 1024;
    prove!(few);
    let mut book = match pass.turn(iron) {
        Turned::Got(book) => book,
        Turned::Held(holder) => return Err(Unsown::Busy(holder)),
    };
    let drawn = draw_both(&mut book, first.place, second.place);
    pass.give(iron, book);
    let (one, two) = match drawn {
        Ok(both) => both,
        Err(lack) => return Err(Unsown::Lacks(lack)),
    };
    pass.set_up(iron, two.0, second.place, two.1);
    pass.set_up(iron, one.0, first.place, one.1);
    let _ = pass.open_row(iron, one.0);
    let word = link_word(one.0, one.1);
    pass.set_entry(iron, row, first.index, word);
    pass.release(iron, one.0, true);
    let _ = pass.open_row(iron, two.0);
    let word = link_word(two.0, two.1);
    pass.set_entry(iron, row, second.index, word);
    pass.release(iron, two.0, true);
    Ok((one.0, two.0))
}
