ghost use Rattle.std.specs.Prelude.{◌≡◌, [], IfOk, IfSome};
ghost use Rattle.machine_plan.specs.declared.kit.Kit.{Kit};
ghost use Rattle.machine_plan.specs.Books.{RowSum};
ghost use Rattle.machine_plan.specs.Kits.{IsFilled, IsSwept};
ghost use Rattle.book.specs.Starting.{Starts};
ghost use Rattle.book.specs.Worked.{worked_limits, map_page, IsMapKit, Maps};

use crate::book::Book;
use corten_base::{Backing, Call, Entry, Limits, MapPlace, Perm, Reply, SpaceId, TxnOp};
use file_shelf::Shelf;
use frame_pool::Pool;
use machine_plan::{Change, Kit};
use row_layout::{FreeRows, Limbo};
use std::alloc::{AllocError, Global};
use std::test::Fail;
use swap_slots::Area;

const LIMITS: Limits = Limits {
    levels: 4,
    frames: 2,
    tables: 4,
    swap: 1,
};

#[test]
fn a_book_has_no_map_of_pages(rt: HostRuntime) -> Result<(), Fail> {
    let book = Book::new(rt.alloc(), LIMITS, 8, Shelf::new(rt.alloc()), 2)?;
    let Book {
        limits,
        shelf,
        journal,
        places,
        pool,
        area,
        free_rows,
        aside,
        limbo,
        next_generation,
    } = book;
    let _limits: Limits = limits;
    let _shelf: Shelf = shelf;
    let _journal: Vec<Entry> = journal;
    let _pool: Pool = pool;
    let _area: Area = area;
    let _free_rows: FreeRows = free_rows;
    let _limbo: Limbo = limbo;
    let whole: (u32, u32, u64) = (places, aside, next_generation);
    assert_eq!(rt; whole, (2, 3, 2));
    Ok(())
}

fn map_at(at: u64) -> Option<Call>
    ensures { IfSome result (λ call. call ≡ map_page at) }
{
    Some(Call::Map {
        space: SpaceId::new(0)?,
        place: MapPlace::At(at),
        len: 4096,
        perm: Perm::R,
        backing: Backing::Zero,
    })
}

/// The kit of a map of one page, of which so many rows are needed.
fn map_kit(alloc: Global, at: u64, rows: u64) -> Result<Kit, AllocError>
    ensures { IfOk result (λ kit. IsMapKit at rows kit) }
{
    let mut kit = Kit::new(alloc)?;
    kit.rows_needed = rows;
    kit.changes.push(Change::Op(TxnOp::Map {
        at,
        fresh: false,
        len: 4096,
        perm: Perm::R,
        backing: Backing::Zero,
    }))?;
    Ok(kit)
}

/// What a reply to a map says.
#[derive(Clone, Copy)]
enum Told {
    At(u64),
    NoTables(u32, u32, u64),
    Other,
}

fn told_by(reply: &Reply) -> Told {
    match reply {
        Reply::At(at) => Told::At(*at),
        Reply::NoTables {
            linked,
            limbo,
            need,
        } => Told::NoTables(*linked, *limbo, *need),
        _ => Told::Other,
    }
}

/// What a commit answers and leaves: the entry's place, the reply, whether the kit is done, and whether these rows were granted.
type Outcome = (u64, Told, bool, bool);

fn map_one(
    book: &mut Book,
    alloc: Global,
    at: u64,
    needed: u64,
    rows: &[(u32, u64)],
) -> Result<Outcome, Fail>
    requires sum { RowSum book.old }
    requires filled { (kit : Kit) → IsMapKit at needed kit → IsFilled book.old 0 (map_page at) kit }
    requires swept { (kit : Kit) → IsSwept book.old kit }
    ensures { IfOk result (λ _. Maps at needed book.old book.new) }
{
    let mut kit = map_kit(alloc, at, needed)?;
    let Some(call) = map_at(at) else {
        return Err("space 0".into());
    };
    match book.commit(0, call, &mut kit) {
        Ok(answered) => Ok((
            answered.ticket,
            told_by(&answered.reply),
            kit.done,
            kit.rows.as_slice() == rows,
        )),
        Err(_full) => Err("full".into()),
    }
}

/// What two calls of a book answer and leave: both outcomes, the free rows after the first, and the free frames and slots and the
/// linked rows after the second.
type Outcomes = (Outcome, Outcome, u32, (u32, u32, u32));

fn map_two(book: &mut Book, alloc: Global) -> Result<Outcomes, Fail>
    requires { Starts worked_limits 8 [] 2 book.old }
{
    let granted = [(2, 2), (3, 3), (4, 4)];
    let first = map_one(book, alloc, 0x20_0000, 3, granted.as_slice())?;
    let free = book.rows_free();
    let second = map_one(book, alloc, 0x40_0000, 1, [].as_slice())?;
    let accounts = book.accounts();
    let counts = (accounts.frames_free, accounts.swap_free, accounts.linked);
    Ok((first, second, free, counts))
}

fn outcomes(alloc: Global) -> Result<Outcomes, Fail> {
    let mut book = Book::new(alloc, LIMITS, 8, Shelf::new(alloc), 2)?;
    map_two(&mut book, alloc)
}

#[test]
fn a_second_call_lacks_a_row(rt: HostRuntime) -> Result<(), Fail> {
    let (first, second, free, counts) = outcomes(rt.alloc())?;
    assert!(rt; matches!(first, (0, Told::At(0x20_0000), true, true)));
    assert!(rt; matches!(second, (1, Told::NoTables(4, 0, 1), false, true)));
    assert!(rt; matches!((free, counts), (0, (2, 1, 4))));
    Ok(())
}
