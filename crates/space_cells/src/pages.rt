//! Pages that get and lose frames and slots. What their marks say stays.
ghost use Rattle.std.specs.Prelude.{◌≡◌, ◌+◌, ◌≤◌, None, length, IfOk, IsSome, OnOk, OnErr};
ghost use Rattle.std.specs.Option.{option_and_then};
ghost use Rattle.std.specs.FinMap as map;
ghost use Rattle.page_map.specs.DontNeed.{given_back};
ghost use Rattle.space_cells.specs.Cells.{changed_at, held_of, overwritten, renumbered, with_held};

use crate::bytes::OwnPage;
use crate::held::{HeldPage, Number, put, put_both, renumber, take, write};
use crate::space::AddressSpace;
use std::alloc::AllocError;

impl AddressSpace {
    /// Gives a page that has a cell a frame or a slot, and answers what it had. It takes memory only where the page had
    /// none.
    pub fn hold(&mut self, page: u64, held: HeldPage) -> Result<Option<HeldPage>, AllocError>
        requires { IsSome (map.get self.old page) }
        ensures old { IfOk result (λ old. old ≡ option_and_then held_of (map.get self.old page)) }
        ensures ok { OnOk result (self.new ≡ changed_at self.old page (with_held held)) }
        ensures unheld { OnErr result (option_and_then held_of (map.get self.old page) ≡ None) }
        ensures err { OnErr result (self.new ≡ self.old) }
    {
        put(&mut self.pages, page, held)
    }

    /// Gives two pages that have cells frames or slots: the one, and then the other.
    pub fn hold_both(
        &mut self,
        near: (u64, HeldPage),
        far: (u64, HeldPage),
    ) -> Result<(), AllocError>
        requires near { IsSome (map.get self.old near.0) }
        requires far { IsSome (map.get self.old far.0) }
        ensures ok { OnOk result (self.new
            ≡ changed_at (changed_at self.old near.0 (with_held near.1)) far.0 (with_held far.1)) }
        ensures err { OnErr result (self.new ≡ self.old) }
    {
        put_both(&mut self.pages, near, far)
    }

    /// Takes the frame or slot of a page, which is what it came from again.
    pub fn let_go(&mut self, page: u64) -> Option<HeldPage>
        ensures held { result ≡ option_and_then held_of (map.get self.old page) }
        ensures cells { self.new ≡ given_back page 1 self.old }
    {
        take(&mut self.pages, page)
    }

    /// Gives a page that has a frame or a slot another one.
    pub fn set_number(&mut self, page: u64, number: Number)
        ensures { self.new ≡ changed_at self.old page (renumbered number) }
    {
        renumber(&mut self.pages, page, number);
    }

    /// Writes bytes over those of a page, from a place on, if it has a frame. It may take the spare buffer.
    pub fn write_at(&mut self, page: u64, place: u32, bytes: &[u8], spare: &mut Option<OwnPage>)
        requires fits { place + length bytes.now ≤ 4096 }
        requires spare { IsSome spare.old }
        ensures { self.new ≡ changed_at self.old page (overwritten place bytes.now) }
    {
        write(&mut self.pages, page, place, bytes, spare);
    }
}
