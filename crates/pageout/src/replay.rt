//! The last touches of a whole history.
ghost use Rattle.std.specs.Prelude.{◌≡◌, ℕ, ◌+◌, ◌<◌, ◌^◌, List, [], ◌∷◌, ◌++◌, length, ◌↔◌, false, All, IsTrue, IfOk, IfSome, IfNone};
ghost use Rattle.corten_base.specs.declared.calls.Entry.{Entry};
ghost use Rattle.corten_base.specs.declared.numbers.Limits.{Limits};
ghost use Rattle.page_map.specs.State.{IsWithinLimits};
ghost use Rattle.page_map.specs.History.{IsHistory};
ghost use Rattle.page_map.specs.History as definitions;
ghost use Rattle.pageout.specs.Ages.{AreAgesOf, IsMade, IsRight};

use crate::ages::Ages;
use corten_base::{Entry, Limits, Reply};
use file_shelf::Shelf;
use mm_model::StepFault;
use std::alloc::{AllocError, Global};

/// The page tables in limbo that a reply shows, and none where it shows none.
fn limbo_of(reply: &Reply) -> u32
    ensures { result ≡ definitions.limbo_of reply.now }
{
    match reply {
        Reply::NoTables { limbo, .. } => *limbo,
        _ => 0,
    }
}

/// Whether two replies are the same.
fn is_same(left: &Reply, right: &Reply) -> bool
    ensures { IsTrue result ↔ (left.now ≡ right.now) }
{
    *left == *right
}

/// Makes an answered call, if its reply is the machine's.
fn follow(alloc: Global, ages: &mut Ages, entry: &Entry) -> Result<bool, AllocError>
    requires { IsMade entry.now }
    ensures right { IfOk result (λ is. IsTrue is
        → (limits : Limits) (files : List (List ℕ)) (es : List Entry)
        → length es + 1 < 2 ^ 64 → AreAgesOf limits files es ages.old
        → AreAgesOf limits files (es ++ entry.now ∷ []) ages.new) }
    ensures wrong { IfOk result (λ is. is ≡ false → ¬ (IsRight ages.old entry.now)) }
{
    match ages.step(alloc, entry.thread, &entry.call, limbo_of(&entry.reply)) {
        Ok(reply) => Ok(is_same(&reply, &entry.reply)),
        Err(StepFault::NoMemory) => Err(AllocError),
        Err(StepFault::NotLegal) => Ok(false),
    }
}

/// The last touches of a history, if it is legal. A thread's number is below 8, and an access is of 1 to 4,096 bytes.
pub fn ages_after(
    alloc: Global,
    limits: Limits,
    shelf: Shelf,
    entries: &[Entry],
) -> Result<Option<Ages>, AllocError>
    requires limits { IsWithinLimits limits }
    requires made { All IsMade entries.now }
    ensures legal { IfOk result (λ found. IfSome found (AreAgesOf limits shelf entries.now)) }
    ensures wrong { IfOk result (λ found. IfNone found (¬ (IsHistory limits shelf entries.now))) }
{
    let mut ages = Ages::new(alloc, limits, shelf)?;
    for entry in entries {
        if !follow(alloc, &mut ages, entry)? {
            return Ok(None);
        }
    }
    Ok(Some(ages))
}
