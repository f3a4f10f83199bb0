//! The decision of an access.
ghost use Rattle.std.specs.Prelude.{◌≡◌, ℕ, ◌≤◌, ◌↔◌};
ghost use Rattle.fault_plan.specs.Access.{Rule, IsMapped, permits};
ghost use Rattle.fault_plan.specs.declared.rule.Decision.{Decision};

use corten_base::{Perm, Status};

/// What an access to one page does before it reads or writes, or why it is refused.
#[derive(Clone, Copy, Debug, PartialEq, Eq)]
pub enum Decision {
    /// The page is read where it stands.
    Ready,
    /// A frame of zeros comes to the page: the first touch of private memory.
    ZeroFill,
    /// A frame with the file's page comes to the page.
    FromFile,
    /// The page gets a frame of its own with the bytes of the shared one (copy on write).
    CopyOut,
    /// The page is its frame's only owner and is written in place.
    TakeOver,
    /// A frame gets the bytes of the page's swap slot.
    SwapIn,
    /// Nothing is mapped (POSIX.1: SIGSEGV with SEGV_MAPERR).
    Segv,
    /// The permission is missing (POSIX.1: SIGSEGV with SEGV_ACCERR).
    Denied,
    /// The page of the file lies wholly past the file's end (POSIX.1 mmap: SIGBUS).
    Bus,
}

/// Whether permissions allow a read or a write.
fn permits(perm: &Perm, write: bool) -> bool
    ensures { result ≡ permits write perm.now }
{
    if write { perm.write } else { perm.read }
}

/// The decision for an access to a page: what stands there (`cell`), whether it writes, how many keys carry the
/// page's frame (`count`, 1 or more where it has one), and whether the page lies wholly past its file's end.
pub fn decide(cell: &Status, write: bool, count: u32, past_end: bool) -> Decision
    requires { IsMapped cell.now → 1 ≤ count }
    ensures right { Rule result cell.now write count past_end }
    ensures only { (other : Decision) → Rule other cell.now write count past_end → result ≡ other }
{
    match cell {
        Status::Invalid => Decision::Segv,
        Status::Anon(perm)
        | Status::File { perm, .. }
        | Status::Mapped { perm, .. }
        | Status::Swapped { perm, .. }
            if !permits(perm, write) => { Decision::Denied }
        Status::Anon(_) => Decision::ZeroFill,
        Status::File { .. } if past_end => Decision::Bus,
        Status::File { .. } => Decision::FromFile,
        Status::Mapped { .. } if !write => Decision::Ready,
        Status::Mapped { .. } if count == 1 => Decision::TakeOver,
        Status::Mapped { .. } => Decision::CopyOut,
        Status::Swapped { .. } => Decision::SwapIn,
    }
}
