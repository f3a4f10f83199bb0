//! Callers that rely on the public clauses alone.
ghost use Rattle.std.specs.Prelude.{◌≡◌, ◌≢◌, ◌+◌, ◌<◌, map, true, false, MatchOption, IfSome};
ghost use Rattle.std.specs.List.{All};
ghost use Rattle.walk_core.specs.Words.{is_link, link_row};
ghost use Rattle.row_table.specs.Passes.{view_of, number_of, table_of, layout_of, IsPassOf};
ghost use Rattle.row_table.specs.Close.{IsIdle, HasAll};
ghost use Rattle.row_uses.specs.Tally.{tally};
ghost use Rattle.row_table.specs.Known.{LinksRow};
ghost use Rattle.table_place.specs.Place.{entry_place};
ghost use Rattle.row_uses.specs.Uses.{IsStanding, WentDown, Touched, LookedIn, Adds, Remembers};
ghost use Rattle.row_uses.specs.Takes.{Takes, Peeks};

use row_table::{Grabbed, Iron, IronClose, Pass, Plan, Turned};

/// A small plan: a book of pairs of a thread and a number.
pub struct Tally;

impl Plan for Tally {
    ghost use Rattle.row_uses.specs.Tally.{tally, lawful};

    type Row = u8;

    type Book = Vec<(u8, u32)>;

    type Kit = ();

    type Entry = (u8, u32);

    ghost meaning = { tally };

    ghost lawful = { lawful };
}

/// What a visit found.
#[derive(Debug, PartialEq, Drop)]
pub enum Visit {
    /// It had this row for a moment.
    Got(u32),
    /// This pass holds the row.
    Held(u8),
    Stale,
    Worn,
}

/// The pass that holds a row.
#[derive(Debug, PartialEq, Drop)]
pub struct Holder(pub u8);

/// Why the content of a row was not seen.
#[derive(Debug, PartialEq, Drop)]
pub enum Unseen {
    /// This pass holds the row.
    Held(u8),
    /// Nobody may take the row.
    Stale,
}

/// What became of an entry.
#[derive(Debug, PartialEq, Drop)]
pub enum Addition {
    /// It stands at the end of the journal.
    Added,
    /// This pass has the book.
    Busy(u8),
    /// The journal found no room for it.
    NoMemory,
}

// The row that a word links.
#[tactic(auto, unfolding(walk_core::specs::Words::is_link, walk_core::specs::Words::link_word))]
fn linked(word: u64) -> Option<u32>
    ensures { MatchOption result (is_link word ≡ false) (λ row. (is_link word ≡ true) × (row ≡ link_row word)) }
{
    let row = word / 4096 % 1024;
    let generation = word / 4_194_304;
    if word == 519 + row * 4096 + generation * 4_194_304 && generation < 1 << 30 {
        Some(row as u32)
    } else {
        None
    }
}

// Goes on to the row that an entry links, if it links one.
pub fn go_down<P: Plan>(iron: &Iron<P>, pass: &mut Pass<P>, row: u32, index: u32) -> u32
    requires table { IsPassOf iron.now pass.old }
    requires inside { index < 512 }
    requires stands { IsStanding (view_of pass.old) row }
    ensures table { table_of pass.new ≡ table_of pass.old }
    ensures number { number_of pass.new ≡ number_of pass.old }
    ensures epoch { (view_of pass.new).epoch ≡ (view_of pass.old).epoch }
    ensures stands { IsStanding (view_of pass.new) result }
    ensures way { (at : IsStanding (view_of pass.old) row) → WentDown (view_of pass.old) at.stand index (view_of pass.new) }
{
    let word = pass.look(iron, row, index);
    match linked(word) {
        Some(next) => next,
        None => row,
    }
}

// Takes the row, leaves, and gives it back.
pub fn touch<P: Plan>(iron: &Iron<P>, pass: &mut Pass<P>, row: u32) -> Visit
    requires table { IsPassOf iron.now pass.old }
    requires stands { IsStanding (view_of pass.old) row }
    ensures table { table_of pass.new ≡ table_of pass.old }
    ensures idle { IsIdle (view_of pass.new) }
    ensures epoch { (view_of pass.new).epoch ≡ (view_of pass.old).epoch + 1 }
    ensures touched { (at : IsStanding (view_of pass.old) row) → Touched (view_of pass.old) at.stand result (view_of pass.new) }
    ensures other { (s : _) → result ≡ Visit.Held s → s ≢ number_of pass.old }
{
    let found = pass.grab(iron, row);
    pass.leave(iron);
    match found {
        Grabbed::Got(content) => {
            pass.release(iron, row, content);
            Visit::Got(row)
        }
        Grabbed::Held(holder) => Visit::Held(holder),
        Grabbed::Stale => Visit::Stale,
    }
}

/// Goes two rows down from row 0 without a lock, has the row that it comes to for a moment, and is outside again.
/// Where another pass holds that row, it is not this one.
pub fn look_in<P: Plan>(iron: &Iron<P>, pass: &mut Pass<P>, first: u32, second: u32) -> Visit
    requires table { IsPassOf iron.now pass.old }
    requires idle { IsIdle (view_of pass.old) }
    requires inside { (first < 512) × (second < 512) }
    ensures table { table_of pass.new ≡ table_of pass.old }
    ensures idle { IsIdle (view_of pass.new) }
    ensures looked { LookedIn first second (view_of pass.old) result (view_of pass.new) }
    ensures other { (s : _) → result ≡ Visit.Held s → s ≢ number_of pass.old }
{
    match pass.enter(iron) {
        Ok(()) => {
            let between = go_down(iron, pass, 0, first);
            let last = go_down(iron, pass, between, second);
            touch(iron, pass, last)
        }
        Err(_) => Visit::Worn,
    }
}

/// Takes a row that a held row links, and answers its content. Where a pass holds the row, this one or another, it answers which.
/// Nobody can have made the row stale, and it is where the link leads.
pub fn take_child<P: Plan>(iron: &Iron<P>, pass: &mut Pass<P>, row: u32) -> Result<P::Row, Holder>
    requires table { IsPassOf iron.now pass.old }
    requires linked { LinksRow (view_of pass.old) row }
    ensures table { table_of pass.new ≡ table_of pass.old }
    ensures takes { (l : LinksRow (view_of pass.old) row) → Takes (view_of pass.old) row (entry_place (view_of pass.old).layout.levels l.linker.place l.index) result (view_of pass.new) }
{
    match pass.grab(iron, row) {
        Grabbed::Got(content) => Ok(content),
        Grabbed::Held(holder) => Err(Holder(holder)),
        Grabbed::Stale => unreachable!(),
    }
}

/// What a row holds on which the pass stands. It is given back as it was.
pub fn peek(iron: &Iron<Tally>, pass: &mut Pass<Tally>, row: u32) -> Result<u8, Unseen>
    requires table { IsPassOf iron.now pass.old }
    requires stands { IsStanding (view_of pass.old) row }
    ensures table { table_of pass.new ≡ table_of pass.old }
    ensures stands { IsStanding (view_of pass.new) row }
    ensures peeks { (at : IsStanding (view_of pass.old) row) → Peeks (view_of pass.old) row at.stand.place result (view_of pass.new) }
{
    match pass.grab(iron, row) {
        Grabbed::Got(found) => {
            pass.release(iron, row, found);
            Ok(found)
        }
        Grabbed::Held(holder) => Err(Unseen::Held(holder)),
        Grabbed::Stale => Err(Unseen::Stale),
    }
}

/// Takes the book if no pass has it, adds an entry of the pass's own, and gives it back. Where the journal has no room, it is given
/// back as it was.
pub fn add_entry(iron: &Iron<Tally>, pass: &mut Pass<Tally>, count: u32) -> Addition
    requires table { IsPassOf iron.now pass.old }
    requires idle { IsIdle (view_of pass.old) }
    ensures table { table_of pass.new ≡ table_of pass.old }
    ensures idle { IsIdle (view_of pass.new) }
    ensures adds { Adds tally (view_of pass.old) (number_of pass.old, count) result (view_of pass.new) }
{
    match pass.turn(iron) {
        Turned::Got(mut entries) => {
            let pushed = entries.push((pass.number(), count));
            pass.give(iron, entries);
            match pushed {
                Ok(()) => Addition::Added,
                Err(_) => Addition::NoMemory,
            }
        }
        Turned::Held(holder) => Addition::Busy(holder),
    }
}

/// The journal of a table when all its passes are given back: it has all that each of them has seen, and each one's own entries
/// at the places that it knows. Nothing if a pass is missing.
pub fn journal_at_end(iron: Iron<Tally>, passes: Vec<Pass<Tally>>) -> Option<Vec<(u8, u32)>>
    requires tables { All (λ p. IsPassOf iron p) passes.items }
    requires idle { All (λ p. IsIdle (view_of p)) passes.items }
    ensures all { MatchOption result (¬ HasAll (layout_of iron).passes (map (λ p. number_of p) passes.items)) (λ _. HasAll (layout_of iron).passes (map (λ p. number_of p) passes.items)) }
    ensures journal { IfSome result (λ journal. All (λ p. Remembers tally journal.items (view_of p)) passes.items) }
{
    match iron.close(passes) {
        IronClose::Closed(parts) => Some(parts.book),
        IronClose::NotAll(_, _) => None,
    }
}
