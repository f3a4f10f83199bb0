//! Pages that should go to swap.
ghost use Rattle.std.specs.Prelude.{◌≡◌};

use std::marker::Model;

/// A page that has a frame of its own. Victims are ordered by last touch, then space, then page.
#[derive(Clone, Copy, PartialEq, Eq, PartialOrd, Ord, Debug)]
pub struct Victim {
    /// The place in the history, counted from 0, of the last answered call that touched the page.
    pub touched: u64,
    pub space: u8,
    pub page: u64,
}

/// Victims, in order.
#[derive(Debug, Drop)]
pub struct VictimList {
    victims: Vec<Victim>,
}

impl Model for VictimList {
    ghost use Rattle.std.specs.Prelude.{List};
    ghost use Rattle.pageout.specs.declared.victims.Victim.{Victim};

    ghost Value = { List Victim };

    ghost view = { λ a. a.victims.items };
}

impl VictimList {
    /// These victims. It takes no memory.
    pub fn of(victims: Vec<Victim>) -> VictimList
        ensures { result ≡ victims.items }
    {
        VictimList { victims }
    }

    /// The victims.
    pub fn list(&self) -> &[Victim]
        ensures { result.now ≡ self.now }
    {
        self.victims.as_slice()
    }
}
