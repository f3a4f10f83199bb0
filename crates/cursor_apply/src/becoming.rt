//! What a cell becomes under one change of a range of pages, and the word that stands beside it.
ghost use Rattle.std.specs.Prelude.{◌≡◌};
ghost use Rattle.machine_plan.specs.HeldRows.{is_table};
ghost use Rattle.cursor_detach.specs.Left.{came_from, drawn_cell};
ghost use Rattle.cursor_apply.specs.Changing.{mark_from, permitted, cell_made, word_made, IsNear, IsNearIn, IsSmall};

use corten_base::{Backing, Perm};
use pte_word::leaf_word;
use row_cells::Cell;

/// What is made of each page of a range.
#[derive(Clone, Copy)]
pub enum Making {
    /// A page of a new mapping, with the backing of its first one.
    Back(Perm, Backing),
    /// Nothing.
    Clear,
    /// The same page with other permissions.
    Permit(Perm),
    /// What it came from.
    GiveBack,
}

/// So many pages from the first one on, and what is made of them.
#[derive(Clone, Copy)]
pub struct RangeChange {
    pub making: Making,
    pub first: u64,
    pub count: u64,
}

/// Whether a cell is a link.
pub(crate) fn is_link_cell(cell: &Cell) -> bool
    ensures { result ≡ is_table cell.now }
{
    matches!(cell, Cell::Table)
}

// The mark of pages that stand so many pages behind the first one of a mapping.
fn mark(perm: Perm, backing: Backing, behind: u64) -> Cell
    requires { IsNear backing behind }
    ensures { result ≡ mark_from backing perm behind }
{
    match backing {
        Backing::Zero => Cell::Anon(perm),
        Backing::File { file, index } => Cell::File {
            perm,
            file,
            index: index + behind,
        },
    }
}

// The mark of what a page came from.
fn origin_mark(perm: Perm, origin: Backing) -> Cell
    ensures { result ≡ came_from origin perm }
{
    match origin {
        Backing::Zero => Cell::Anon(perm),
        Backing::File { file, index } => Cell::File { perm, file, index },
    }
}

// The same pages with other permissions.
fn permit(cell: Cell, perm: Perm) -> Cell
    ensures { result ≡ permitted perm cell }
{
    match cell {
        Cell::Invalid => Cell::Invalid,
        Cell::Table => Cell::Table,
        Cell::Anon(_) => Cell::Anon(perm),
        Cell::File { file, index, .. } => Cell::File { perm, file, index },
        Cell::Mapped { origin, frame, .. } => Cell::Mapped {
            perm,
            origin,
            frame,
        },
        Cell::Swapped { origin, slot, .. } => Cell::Swapped { perm, origin, slot },
    }
}

// The same pages without frames and slots.
fn give_back(cell: Cell) -> Cell
    ensures { result ≡ drawn_cell cell }
{
    match cell {
        Cell::Mapped { perm, origin, .. } => origin_mark(perm, origin),
        Cell::Swapped { perm, origin, .. } => origin_mark(perm, origin),
        other => other,
    }
}

/// What is made of a cell whose first page stands so many pages behind the first one of the range.
pub(crate) fn make_cell(making: Making, behind: u64, cell: Cell) -> Cell
    requires { IsNearIn making behind }
    ensures { result ≡ cell_made making behind cell }
{
    match making {
        Making::Back(perm, backing) => mark(perm, backing, behind),
        Making::Clear => Cell::Invalid,
        Making::Permit(perm) => permit(cell, perm),
        Making::GiveBack => give_back(cell),
    }
}

/// The word beside a cell that is no link. That no other page has a frame is not known here, so no leaf is writable.
pub(crate) fn word_of(cell: &Cell) -> u64
    requires { IsSmall cell.now }
    ensures { result ≡ word_made cell.now }
{
    match cell {
        Cell::Mapped { perm, frame, .. } => {
            leaf_word(frame.number(), perm.read, perm.write, perm.exec, false)
        }
        _ => 0,
    }
}
