//! What is counted of an image's items.
ghost use Rattle.std.specs.Prelude.{◌≡◌, ◌+◌, ◌<◌, ◌≤◌, ◌^◌, ◌↔◌, [], ◌∷◌, ◌++◌, true, IsTrue};
ghost use Rattle.table_place.specs.Place.{is_user_range};
ghost use Rattle.mm_script.specs.CallLine.{IsWithin};
ghost use Rattle.image_text.specs.Items.{first_of, count_of, is_live, is_out};
ghost use Rattle.image_text.specs.declared.image.Residence.{Residence};
ghost use Rattle.image_text.specs.Images.{AreInOrder, IsNext};
ghost use Rattle.image_text.specs.Reading.{AreSmall, IsTally, Fits};

use crate::image::{Item, Residence};
use crate::order::end_of;
use crate::tables::new_tables;
use corten_base::Limits;

/// How many pages have a frame and how many a slot, and how many page tables the map wants, the root's among them.
#[derive(Clone, Copy)]
pub(crate) struct Tally {
    pub(crate) live: u32,
    pub(crate) out: u32,
    pub(crate) tables: u32,
}

/// Whether an item is a page that has its bytes there.
fn is_at(item: &Item, residence: Residence) -> bool
    ensures live { residence ≡ Residence.Live → result ≡ is_live item.now }
    ensures out { residence ≡ Residence.Out → result ≡ is_out item.now }
{
    match item {
        Item::Run { .. } => false,
        Item::Page {
            residence: where_it_is,
            ..
        } => *where_it_is == residence,
    }
}

impl Tally {
    /// What is counted with an item more.
    pub(crate) fn with(self, levels: u8, items: &[Item], item: &Item) -> Tally
        requires levels { IsWithin 4 5 levels }
        requires small { AreSmall items.now }
        requires counted { IsTally levels items.now self }
        requires few { (self.live ≤ 4096) × (self.out ≤ 4096) × (self.tables ≤ 1023) }
        requires order { AreInOrder items.now }
        requires next { IsNext items.now item.now }
        requires user { is_user_range levels (first_of item.now) (count_of item.now) ≡ true }
        ensures { IsTally levels (items.now ++ item.now ∷ []) result }
    {
        let first = item.first();
        let new = new_tables(levels, end_of(items), first, first + item.count());
        Tally {
            live: self.live + u32::from(is_at(item, Residence::Live)),
            out: self.out + u32::from(is_at(item, Residence::Out)),
            tables: self.tables + new,
        }
    }

    /// Whether a machine has so many of each.
    pub(crate) fn fits(self, limits: Limits) -> bool
        ensures { IsTrue result ↔ Fits limits self }
    {
        self.live <= limits.frames && self.out <= limits.swap && self.tables <= limits.tables
    }
}
