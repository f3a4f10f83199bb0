//! The page tables that are there, by their places.
ghost use Rattle.std.specs.Prelude.{◌≡◌, ℕ, ◌-◌, ◌<◌, ◌≤◌, ◌^◌, true, false, not, ◌&&◌, nat_eq, take, OnOk, OnErr, IfOk, IfSome, IfNone};
ghost use Rattle.std.specs.FinSet as set;
ghost use Rattle.table_place.specs.Place.{is_inside};
ghost use Rattle.table_place.specs.declared.Place.{Place};
ghost use Rattle.plain_counts.specs.Levels.{is_of, is_elsewhere, is_between, first_of, IsUpTo, Lists};

use std::alloc::{AllocError, Global};
use std::collections::BTreeSet;
use std::marker::Model;
use table_place::Place;

/// The places of page tables.
#[derive(Drop)]
pub struct Tables {
    places: BTreeSet<Place>,
}

impl Model for Tables {
    ghost use Rattle.std.specs.FinSet as set;
    ghost use Rattle.table_place.specs.Place.{place_cmp};
    ghost use Rattle.page_map.specs.StateCode.{place_code};

    ghost Value = { set.FinSet place_cmp };

    ghost coded = { set.code place_code };

    ghost view = { λ a. set.from_list a.places.keys };
}

/// The number of pages in the span of a table.
pub fn span(level: u8) -> u64
    requires { level ≤ 4 }
    ensures pages { result ≡ 512 ^ level }
    ensures some { 0 < result }
{
    match level {
        0 => 1,
        1 => 512,
        2 => 262_144,
        3 => 134_217_728,
        _ => 68_719_476_736,
    }
}

/// Whether a table is below the root and its whole span lies in a range of pages.
fn is_covered(levels: u8, p: &Place, space: u8, first: u64, count: u64) -> bool
    requires { levels ≤ 5 }
    ensures { result ≡ is_inside levels space first count p.now }
{
    if p.space != space || p.level >= levels {
        return false;
    }
    let pages = u128::from(span(p.level));
    let start = u128::from(p.prefix) * pages;
    u128::from(first) <= start && start + pages <= u128::from(first) + u128::from(count)
}

/// The first place of a space.
fn first_of(space: u8) -> Place
    ensures { result ≡ first_of space }
{
    Place {
        space,
        level: 0,
        prefix: 0,
    }
}

impl Tables {
    /// No tables.
    pub fn new(alloc: Global) -> Self
        ensures { result ≡ set.empty }
    {
        Self {
            places: BTreeSet::new(alloc),
        }
    }

    /// How many tables there are.
    pub fn len(&self) -> usize
        ensures { result ≡ set.len self.now }
    {
        self.places.len()
    }

    /// Whether a table is there.
    pub fn contains(&self, place: &Place) -> bool
        ensures { result ≡ set.contains self.now place.now }
    {
        self.places.contains(place)
    }

    /// Puts in a table.
    pub fn insert(&mut self, place: Place) -> Result<(), AllocError>
        ensures ok { OnOk result (self.new ≡ set.insert self.old place) }
        ensures err { OnErr result (self.new ≡ self.old) }
    {
        self.places.insert(place)?;
        Ok(())
    }

    /// The tables of a space.
    pub fn of_space(&self, alloc: Global, space: u8) -> Result<Vec<Place>, AllocError>
        requires { space < 64 }
        ensures { IfOk result (λ tables. Lists (set.retain self.now (is_of space)) tables.items) }
    {
        let places = self.places.range(first_of(space)..first_of(space + 1));
        places.copied().collect(alloc)
    }

    /// All tables.
    pub fn list(&self, alloc: Global) -> Result<Vec<Place>, AllocError>
        ensures { IfOk result (λ tables. Lists self.now tables.items) }
    {
        self.places.iter().copied().collect(alloc)
    }

    /// Puts in tables one by one, until memory is wanted.
    fn insert_some(&mut self, places: &[Place]) -> Result<(), AllocError>
        ensures ok { OnOk result (self.new ≡ set.union self.old (set.from_list places.now)) }
        ensures err { OnErr result ((k : ℕ) × (self.new ≡ set.union self.old (set.from_list (take k places.now)))) }
    {
        for place in places {
            self.insert(*place)?;
        }
        Ok(())
    }

    /// Removes a table.
    fn remove(&mut self, place: &Place)
        ensures { self.new ≡ set.remove self.old place.now }
    {
        self.places.remove(place);
    }

    /// Removes tables.
    pub fn remove_all(&mut self, places: &[Place])
        ensures { self.new ≡ set.difference self.old (set.from_list places.now) }
    {
        for place in places {
            self.remove(place);
        }
    }

    /// Puts in tables, all of them or none.
    pub fn insert_all(&mut self, places: &[Place]) -> Result<(), AllocError>
        requires absent { set.difference self.old (set.from_list places.now) ≡ self.old }
        ensures ok { OnOk result (self.new ≡ set.union self.old (set.from_list places.now)) }
        ensures err { OnErr result (self.new ≡ self.old) }
    {
        match self.insert_some(places) {
            Ok(()) => Ok(()),
            Err(wanting) => {
                self.remove_all(places);
                Err(wanting)
            }
        }
    }

    /// The first table from one place on and before another.
    fn first_between(&self, low: Place, high: Place) -> Option<Place>
        requires { IsUpTo low high }
        ensures some { IfSome result (λ p. (set.contains self.now p ≡ true) × (is_between low high p ≡ true)) }
        ensures none { IfNone result ((p : Place) → is_between low high p ≡ true → set.contains self.now p ≡ false) }
    {
        if low == high {
            return None;
        }
        // Where a range has no end, none is looked up.
        let Some(place) = self.places.range(low..).next() else {
            return None;
        };
        if place.cmp(&high).is_lt() {
            Some(*place)
        } else {
            None
        }
    }

    /// Removes the tables from one place on and before another, in the time of those that are there.
    fn remove_between(&mut self, low: Place, high: Place)
        requires { IsUpTo low high }
        ensures { self.new ≡ set.retain self.old (λ p. not (is_between low high p)) }
    {
        while let Some(place) = self.first_between(low, high) {
            self.remove(&place);
        }
    }

    /// Removes the tables of one level whose spans lie in a range of pages.
    fn remove_covered(&mut self, levels: u8, space: u8, level: u8, first: u64, end: u64)
        requires few { levels ≤ 5 }
        requires level { level < levels }
        requires range { first ≤ end }
        ensures { self.new ≡ set.retain self.old (λ p. not (nat_eq p.level level && is_inside levels space first (end - first) p)) }
    {
        let pages = span(level);
        let start = first.div_ceil(pages);
        let low = Place {
            space,
            level,
            prefix: start,
        };
        let high = Place {
            space,
            level,
            prefix: start.max(end / pages),
        };
        self.remove_between(low, high);
    }

    /// Removes the tables below the root whose spans lie in a range of pages, in the time of those.
    pub fn remove_inside(&mut self, levels: u8, space: u8, first: u64, count: u64)
        requires { levels ≤ 5 }
        ensures { self.new ≡ set.retain self.old (λ p. not (is_inside levels space first count p)) }
    {
        match first.checked_add(count) {
            Some(end) => self.remove_up_to(levels, space, first, end),
            // No range of pages of a space reaches so far.
            None => self
                .places
                .retain(|p| !is_covered(levels, p, space, first, count)),
        }
    }

    /// Removes the tables below the root whose spans lie in the pages from one on and before another.
    fn remove_up_to(&mut self, levels: u8, space: u8, first: u64, end: u64)
        requires few { levels ≤ 5 }
        requires range { first ≤ end }
        ensures { self.new ≡ set.retain self.old (λ p. not (is_inside levels space first (end - first) p)) }
    {
        for level in 0..levels {
            self.remove_covered(levels, space, level, first, end);
        }
    }

    /// Removes the tables of a space, in the time of those.
    pub fn remove_space(&mut self, space: u8)
        ensures { self.new ≡ set.retain self.old (is_elsewhere space) }
    {
        match space.checked_add(1) {
            Some(next) => self.remove_between(first_of(space), first_of(next)),
            None => self.places.retain(|p| p.space != space),
        }
    }
}
