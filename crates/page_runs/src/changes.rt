//! Making several changes, all or none. What takes memory is done first, and changes what stands at no page.
ghost use Rattle.std.specs.Prelude.{◌≡◌, ℕ, ◌+◌, ◌<◌, OnOk, OnErr};
ghost use Rattle.std.specs.List.{All};
ghost use Rattle.page_runs.specs.Spans.{AreRuns, IsEdge, IsTaken, marks};
ghost use Rattle.page_runs.specs.Changes.{IsChange, IsCut, IsFilled, after_change, after_changes};

use crate::change::{Change, Effect};
use crate::clearing::{clear, clear_whole};
use crate::edges::{split, tidy};
use crate::filling::fill;
use crate::laying::{lay, repaint, whole};
use crate::painting::paint;
use crate::spans::Spans;
use std::alloc::AllocError;

/// Fills the range of a change that maps.
fn fill_for(spans: &mut Spans, change: Change) -> Result<(), AllocError>
    requires fits { IsChange change }
    requires runs { AreRuns spans.old }
    ensures runs { AreRuns spans.new }
    ensures same { marks spans.new ≡ marks spans.old }
    ensures taken { (q : ℕ) → IsTaken spans.old q → IsTaken spans.new q }
    ensures filled { OnOk result (IsFilled spans.new change) }
{
    match change.effect {
        Effect::Map(_) => fill(spans, change.first, change.first + change.count),
        Effect::Unmap => Ok(()),
        Effect::Protect(_) => Ok(()),
    }
}

/// Fills the ranges of the changes that map.
fn fill_all(spans: &mut Spans, changes: &[Change]) -> Result<(), AllocError>
    requires fits { All IsChange changes.now }
    requires runs { AreRuns spans.old }
    ensures runs { AreRuns spans.new }
    ensures same { marks spans.new ≡ marks spans.old }
    ensures filled { OnOk result (All (IsFilled spans.new) changes.now) }
{
    for change in changes {
        fill_for(spans, *change)?;
    }
    Ok(())
}

/// Splits the runs at both edges of a range.
fn cut(spans: &mut Spans, change: Change) -> Result<(), AllocError>
    requires fits { IsChange change }
    requires runs { AreRuns spans.old }
    ensures runs { AreRuns spans.new }
    ensures same { marks spans.new ≡ marks spans.old }
    ensures edges { (q : ℕ) → IsEdge q spans.old → IsEdge q spans.new }
    ensures taken { (q : ℕ) → IsTaken spans.old q → IsTaken spans.new q }
    ensures cut { OnOk result (IsCut spans.new change) }
{
    split(spans, change.first)?;
    split(spans, change.first + change.count)
}

/// Splits the runs at the edges of all ranges.
fn cut_all(spans: &mut Spans, changes: &[Change]) -> Result<(), AllocError>
    requires fits { All IsChange changes.now }
    requires runs { AreRuns spans.old }
    ensures runs { AreRuns spans.new }
    ensures same { marks spans.new ≡ marks spans.old }
    ensures taken { (q : ℕ) → IsTaken spans.old q → IsTaken spans.new q }
    ensures cut { OnOk result (All (IsCut spans.new) changes.now) }
{
    for change in changes {
        cut(spans, *change)?;
    }
    Ok(())
}

/// Does all that takes memory.
fn prepare(spans: &mut Spans, changes: &[Change]) -> Result<(), AllocError>
    requires fits { All IsChange changes.now }
    requires runs { AreRuns spans.old }
    ensures runs { AreRuns spans.new }
    ensures same { marks spans.new ≡ marks spans.old }
    ensures filled { OnOk result (All (IsFilled spans.new) changes.now) }
    ensures cut { OnOk result (All (IsCut spans.new) changes.now) }
{
    fill_all(spans, changes)?;
    cut_all(spans, changes)
}

/// Makes prepared changes, one after the other.
fn paint_all(spans: &mut Spans, changes: &[Change])
    requires fits { All IsChange changes.now }
    requires filled { All (IsFilled spans.old) changes.now }
    requires cut { All (IsCut spans.old) changes.now }
    requires runs { AreRuns spans.old }
    ensures runs { AreRuns spans.new }
    ensures made { marks spans.new ≡ after_changes (marks spans.old) changes.now }
{
    for change in changes {
        paint(spans, *change);
    }
}

/// Takes out what holds no marks in the ranges, and joins what goes on.
fn tidy_all(spans: &mut Spans, changes: &[Change])
    requires fits { All IsChange changes.now }
    requires runs { AreRuns spans.old }
    ensures runs { AreRuns spans.new }
    ensures same { marks spans.new ≡ marks spans.old }
{
    for change in changes {
        tidy(spans, change.first, change.first + change.count);
    }
}

/// Makes the changes in their order, all or none.
fn apply_all(spans: &mut Spans, changes: &[Change]) -> Result<(), AllocError>
    requires fits { All IsChange changes.now }
    requires runs { AreRuns spans.old }
    ensures runs { AreRuns spans.new }
    ensures ok { OnOk result (marks spans.new ≡ after_changes (marks spans.old) changes.now) }
    ensures err { OnErr result (marks spans.new ≡ marks spans.old) }
{
    match prepare(spans, changes) {
        Ok(()) => {
            paint_all(spans, changes);
            tidy_all(spans, changes);
            Ok(())
        }
        Err(e) => {
            tidy_all(spans, changes);
            Err(e)
        }
    }
}

/// Makes one change of a range that is one run, or of another, or none.
fn apply_split(spans: &mut Spans, change: Change) -> Result<(), AllocError>
    requires fits { IsChange change }
    requires runs { AreRuns spans.old }
    ensures runs { AreRuns spans.new }
    ensures ok { OnOk result (marks spans.new ≡ after_change (marks spans.old) change) }
    ensures err { OnErr result (marks spans.new ≡ marks spans.old) }
{
    match whole(spans, change.first, change.count) {
        Some(span) => {
            repaint(spans, change, span);
            Ok(())
        }
        None => apply_all(spans, &[change]),
    }
}

/// Makes one change after splits at the edges of its range, which is often one run then, or none.
fn apply_cut(spans: &mut Spans, change: Change) -> Result<(), AllocError>
    requires fits { IsChange change }
    requires runs { AreRuns spans.old }
    ensures runs { AreRuns spans.new }
    ensures ok { OnOk result (marks spans.new ≡ after_change (marks spans.old) change) }
    ensures err { OnErr result (marks spans.new ≡ marks spans.old) }
{
    match cut(spans, change) {
        Ok(()) => apply_split(spans, change),
        Err(e) => {
            tidy(spans, change.first, change.first + change.count);
            Err(e)
        }
    }
}

/// Makes one change of a range that is not one run, or none.
fn apply_to_parts(spans: &mut Spans, change: Change) -> Result<(), AllocError>
    requires fits { IsChange change }
    requires runs { AreRuns spans.old }
    ensures runs { AreRuns spans.new }
    ensures ok { OnOk result (marks spans.new ≡ after_change (marks spans.old) change) }
    ensures err { OnErr result (marks spans.new ≡ marks spans.old) }
{
    match change.effect {
        Effect::Map(mark) => lay(spans, change.first, change.count, mark),
        Effect::Unmap => clear(spans, change.first, change.count),
        Effect::Protect(_) => apply_cut(spans, change),
    }
}

/// Makes one change, or none. Where its range is one run, no other run changes but for what goes on from it.
fn apply_one(spans: &mut Spans, change: Change) -> Result<(), AllocError>
    requires fits { IsChange change }
    requires runs { AreRuns spans.old }
    ensures runs { AreRuns spans.new }
    ensures ok { OnOk result (marks spans.new ≡ after_change (marks spans.old) change) }
    ensures err { OnErr result (marks spans.new ≡ marks spans.old) }
{
    let Some(span) = whole(spans, change.first, change.count) else {
        return apply_to_parts(spans, change);
    };
    match change.effect {
        Effect::Unmap => clear_whole(spans, change.first, change.count, span),
        Effect::Map(_) => repaint(spans, change, span),
        Effect::Protect(_) => repaint(spans, change, span),
    }
    Ok(())
}

/// Makes the changes in their order, all or none.
pub(crate) fn apply(spans: &mut Spans, changes: &[Change]) -> Result<(), AllocError>
    requires fits { All IsChange changes.now }
    requires runs { AreRuns spans.old }
    ensures runs { AreRuns spans.new }
    ensures ok { OnOk result (marks spans.new ≡ after_changes (marks spans.old) changes.now) }
    ensures err { OnErr result (marks spans.new ≡ marks spans.old) }
{
    match changes {
        [change] => apply_one(spans, *change),
        _ => apply_all(spans, changes),
    }
}
