//! Permissions of a page.
ghost use Rattle.std.specs.Prelude.{◌≡◌, map};
ghost use Rattle.corten_base.specs.Permissions.{bits_of, perm_of_bits, permission_names};

use bitflags::{Flag, Flags};

/// What may be done with a page: a set of read, write and execute (`PROT_READ`, `PROT_WRITE` and `PROT_EXEC` of mmap(2)).
#[derive(Clone, Copy, PartialEq, Eq, Debug)]
pub struct Perm {
    /// Whether the page may be read.
    pub read: bool,
    /// Whether it may be written.
    pub write: bool,
    /// Whether its bytes may be executed.
    pub exec: bool,
}

impl Perm {
    /// Read alone.
    pub const R: Perm = Perm {
        read: true,
        write: false,
        exec: false,
    };

    /// Write alone.
    pub const W: Perm = Perm {
        read: false,
        write: true,
        exec: false,
    };

    /// Execute alone.
    pub const X: Perm = Perm {
        read: false,
        write: false,
        exec: true,
    };

    const FLAGS: &'static [Flag<Perm>] = &[
        Flag {
            name: "R",
            value: Perm::R,
        },
        Flag {
            name: "W",
            value: Perm::W,
        },
        Flag {
            name: "X",
            value: Perm::X,
        },
    ];
}

/// A `Perm` is a set of these three alone, so bits that name none of them are left out.
impl Flags for Perm {
    type Bits = u8;

    fn flags<'a>() -> &'a [Flag<Perm>]
        ensures { map (λ f. (f.name.now, bits_of f.value)) result.now ≡ permission_names }
    {
        Perm::FLAGS
    }

    fn bits(&self) -> u8
        ensures { result ≡ bits_of self.now }
    {
        u8::from(self.read) + 2 * u8::from(self.write) + 4 * u8::from(self.exec)
    }

    fn from_bits_retain(bits: u8) -> Perm
        ensures { result ≡ perm_of_bits bits }
    {
        Perm {
            read: bits % 2 == 1,
            write: bits / 2 % 2 == 1,
            exec: bits / 4 % 2 == 1,
        }
    }
}
