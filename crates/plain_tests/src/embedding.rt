//! The code with which README embeds the plain machine.

use corten_base::{Backing, ByteList, Call, Limits, MapPlace, Perm, Reply, SpaceId};
use file_shelf::Shelf;
use mm_model::{Plain, StepFault};
use std::alloc::{AllocError, Global};
use std::test::Fail;

/// Maps a page where there is room, stores two bytes there, and loads three.
fn store_and_load(alloc: Global, space: SpaceId, perm: Perm) -> Result<Reply, StepFault> {
    let limits = Limits {
        levels: 4,
        frames: 2,
        tables: 8,
        swap: 1,
    };
    let mut plain = Plain::new(alloc, limits, Shelf::new(alloc))?;
    let map = Call::Map {
        space,
        place: MapPlace::Any,
        len: 4096,
        perm,
        backing: Backing::Zero,
    };
    let at = match plain.step(alloc, 0, &map, 0)? {
        Reply::At(at) => at,
        refused => return Ok(refused),
    };
    let bytes = ByteList::of(alloc, b"hi")?;
    plain.step(alloc, 0, &Call::Store { space, at, bytes }, 0)?;
    plain.step(alloc, 0, &Call::Load { space, at, len: 3 }, 0)
}

/// Whether three bytes are loaded, the last a zero.
fn is_loaded(alloc: Global, reply: &Reply) -> Result<bool, AllocError> {
    Ok(*reply == Reply::Bytes(ByteList::of(alloc, b"hi\0")?))
}

#[test]
fn the_code_of_the_readme(rt: HostRuntime) -> Result<(), Fail> {
    const READ_WRITE: Perm = Perm {
        read: true,
        write: true,
        exec: false,
    };
    let alloc = rt.alloc();
    let Some(space) = SpaceId::new(0) else {
        assert!(rt; false);
        return Ok(());
    };
    let reply = store_and_load(alloc, space, READ_WRITE)?;
    assert!(rt; is_loaded(alloc, &reply)?);
    Ok(())
}
