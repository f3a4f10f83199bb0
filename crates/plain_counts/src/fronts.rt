//! How far the arenas of the threads are full, so that the search for a gap need not go over them again.
ghost use Rattle.std.specs.Prelude.{◌≡◌, ℕ, ◌+◌, ◌*◌, ◌^◌, ◌<◌, ◌≢◌, IfOk, length, replicate, slice_set};
ghost use Rattle.page_map.specs.Mapping.{arena_first};
ghost use Rattle.plain_counts.specs.Fronts.{full_pages, full_before};

use std::alloc::{AllocError, Global};
use std::marker::Model;

/// The pages of a thread's arena.
pub const ARENA_PAGES: u64 = 1 << 27;

/// For each space and thread how many pages from the beginning of the thread's arena on are known to have cells.
#[derive(Drop)]
pub struct Fronts {
    pages: Vec<u32>,
}

impl Model for Fronts {
    ghost use Rattle.std.specs.Prelude.{◌≡◌, List, ℕ, length};

    ghost Value = { List ℕ };

    ghost view = { λ a. a.pages.items };

    ghost invariant = { λ a. length a.pages.items ≡ 512 };
}

/// How many of the known pages of a thread's arena stand before a range, where the range is not before the arena.
fn known_before(thread: u8, known: u32, first: u64, count: u64) -> u32
    requires { first + count < 2 ^ 64 }
    ensures { result ≡ full_before (arena_first thread) known first count }
{
    let arena = (u64::from(thread) + 1) * ARENA_PAGES;
    if first + count <= arena {
        return known;
    }
    u64::from(known).min(first.saturating_sub(arena)) as u32
}

impl Fronts {
    /// Nothing is known of any arena.
    pub fn new(alloc: Global) -> Result<Fronts, AllocError>
        ensures { IfOk result (λ fronts. fronts ≡ replicate 512 0) }
    {
        Ok(Fronts {
            pages: vec![in alloc; 0; 512]?,
        })
    }

    /// How many pages of a thread's arena in a space are known to have cells.
    pub fn get(&self, space: u8, thread: u8) -> u32
        requires space { space < 64 }
        requires thread { thread < 8 }
        ensures value { result ≡ full_pages self.now space thread }
        ensures whole { length self.now ≡ 512 }
    {
        self.pages[8 * usize::from(space) + usize::from(thread)]
    }

    /// Keeps how many pages of a thread's arena in a space have cells.
    pub fn set(&mut self, space: u8, thread: u8, count: u32)
        requires space { space < 64 }
        requires thread { thread < 8 }
        ensures { self.new ≡ slice_set self.old (8 * space + thread) count }
    {
        self.pages[8 * usize::from(space) + usize::from(thread)] = count;
    }

    /// Forgets what is known of the pages of a range in the arenas of a space, and of those after it.
    pub fn forget(&mut self, space: u8, first: u64, count: u64)
        requires space { space < 64 }
        requires fits { first + count < 2 ^ 64 }
        ensures here { (t : ℕ) → t < 8 → full_pages self.new space t ≡ full_before (arena_first t) (full_pages self.old space t) first count }
        ensures others { (s t : ℕ) → s ≢ space → t < 8 → full_pages self.new s t ≡ full_pages self.old s t }
    {
        for thread in 0..8 {
            let known = self.get(space, thread);
            self.set(space, thread, known_before(thread, known, first, count));
        }
    }
}
