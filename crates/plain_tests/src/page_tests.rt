//! Pages of user space and in bodies, and what an access to one does.
use corten_base::{Body, PageBuf, Perm, Range, Status};
use fault_plan::{Decision, decide};
use std::alloc::{AllocError, Global};
use std::test::Fail;

const READ_WRITE: Perm = Perm {
    read: true,
    write: true,
    exec: false,
};

const MAPPED: Status = Status::Mapped {
    perm: READ_WRITE,
    frame: 0,
};

const SWAPPED: Status = Status::Swapped {
    perm: READ_WRITE,
    slot: 0,
};

const FILE: Status = Status::File {
    perm: Perm::R,
    file: 0,
    index: 1,
};

#[test]
fn user_pages_are_those_of_the_lower_half(rt: HostRuntime) -> Result<(), Fail> {
    const RANGES: [(u8, u64, u64, Option<(u64, u64)>); 9] = [
        (4, 65_536, 1, Some((16, 1))),
        (4, 0x7fff_ffff_d000, 4097, Some((34_359_738_365, 2))),
        (4, 0x7fff_ffff_e000, 4097, None),
        (5, 0x7fff_ffff_e000, 4097, Some((34_359_738_366, 2))),
        (5, 0xff_ffff_ffff_e000, 4096, Some((17_592_186_044_414, 1))),
        (5, 0xff_ffff_ffff_f000, 4096, None),
        (4, 61_440, 4096, None),
        (4, 65_536, 0, None),
        (5, 65_537, 1, None),
    ];
    for (levels, at, len, wanted) in RANGES {
        let found = Range::of_bytes(at, len, levels).map(|range| (range.first(), range.count()));
        assert_eq!(rt; found, wanted);
    }
    Ok(())
}

/// The first two bytes of a body that was shared, and of the copy to which "c" was written.
fn after_sharing(alloc: Global) -> Result<([u8; 2], [u8; 2]), AllocError> {
    let mut body = Body::of(PageBuf::zero(alloc)?);
    body.write_at(0, b"ab");
    let (mut second, _spare) = body.share(alloc)?;
    let _unused = second.write_own(PageBuf::zero(alloc)?);
    second.write_at(1, b"c");
    let mut found = ([0; 2], [0; 2]);
    body.read_at(0, &mut found.0);
    second.read_at(0, &mut found.1);
    Ok(found)
}

#[test]
fn a_shared_body_is_written_in_a_buffer_of_its_own(rt: HostRuntime) -> Result<(), Fail> {
    assert_eq!(rt; after_sharing(rt.alloc())?, (*b"ab", *b"ac"));
    Ok(())
}

/// The decision where the page's frame has so many further owners.
fn decision(cell: Status, write: bool, further: u8, past_end: bool) -> Decision {
    decide(&cell, write, u32::from(further) + 1, past_end)
}

#[test]
fn an_access_is_decided_by_the_cell(rt: HostRuntime) {
    const CASES: [(Status, bool, u8, bool, Decision); 10] = [
        (Status::Invalid, false, 0, false, Decision::Segv),
        (Status::Anon(Perm::R), true, 0, false, Decision::Denied),
        (Status::Anon(Perm::R), false, 0, false, Decision::ZeroFill),
        (FILE, true, 0, true, Decision::Denied),
        (FILE, false, 0, true, Decision::Bus),
        (FILE, false, 0, false, Decision::FromFile),
        (MAPPED, false, 1, false, Decision::Ready),
        (MAPPED, true, 0, false, Decision::TakeOver),
        (MAPPED, true, 1, false, Decision::CopyOut),
        (SWAPPED, false, 0, false, Decision::SwapIn),
    ];
    for (cell, write, further, past_end, wanted) in CASES {
        assert_eq!(rt; decision(cell, write, further, past_end), wanted);
    }
}
