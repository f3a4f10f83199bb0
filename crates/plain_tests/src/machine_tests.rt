//! The plain machine with ample memory: each call is accepted once. What the calls reply is said by contracts, and shown
//! as printed text by the cases of the command line.
ghost use Rattle.std.specs.Prelude.{◌≤◌, IfOk};
ghost use Rattle.page_map.specs.State.{linked};
ghost use Rattle.mm_model.specs.Served.{IsServed};

use corten_base::{
    Accounts, Backing, ByteList, Call, Limits, MapPlace, OpList, Perm, Reply, SpaceId, Status,
    TxnOp, Why,
};
use file_shelf::Shelf;
use mm_model::{Plain, StepFault};
use std::alloc::{AllocError, Global};
use std::test::Fail;

/// Where the arena of thread 0 begins.
const BASE: u64 = 0x80_0000_0000;

/// The page that the calls name.
const AT: u64 = 0x20_0000;

const LEN: u64 = 4096;

const READ_WRITE: Perm = Perm {
    read: true,
    write: true,
    exec: false,
};

const FILE: Backing = Backing::File { file: 0, index: 0 };

const UNMAP: TxnOp = TxnOp::Unmap { at: AT, len: LEN };

const PROTECT: TxnOp = TxnOp::Protect {
    at: AT,
    len: LEN,
    perm: READ_WRITE,
};

/// A call on the page, an access being of two bytes.
#[derive(Clone, Copy)]
enum Asked {
    Map(MapPlace, Backing),
    Unmap,
    Protect,
    Load,
    Store,
    Fault,
    Spawn,
    Fork,
    Exit,
    Out,
    In,
    Txn(TxnOp),
    DontNeed,
    /// From a number of pages to another.
    Remap(u8, u8),
}

/// A reply, which has no bytes or two.
#[derive(Clone, Copy)]
enum Wanted {
    Ok,
    At(u64),
    Bytes([u8; 2]),
    Space(u8),
    Moved(u32),
    Done,
    Hole,
}

/// The number of a space, a call on it, and the reply that thread 0 gets.
type Step = (u8, Asked, Wanted);

/// A transaction of one operation on the page.
fn transaction(alloc: Global, space: SpaceId, op: TxnOp) -> Result<Call, AllocError>
    ensures { IfOk result IsServed }
{
    let mut ops = OpList::new(alloc);
    if ops.push(op).is_err() {
        return Err(AllocError);
    }
    Ok(Call::Txn {
        space,
        at: AT,
        len: LEN,
        ops,
    })
}

/// The call on this space.
fn call_of(alloc: Global, space: SpaceId, asked: Asked) -> Result<Call, AllocError>
    ensures { IfOk result IsServed }
{
    let (at, len, perm) = (AT, LEN, READ_WRITE);
    match asked {
        Asked::Map(place, backing) => Ok(Call::Map {
            space,
            place,
            len,
            perm,
            backing,
        }),
        Asked::Unmap => Ok(Call::Unmap { space, at, len }),
        Asked::Protect => Ok(Call::Protect {
            space,
            at,
            len,
            perm,
        }),
        Asked::Load => Ok(Call::Load { space, at, len: 2 }),
        Asked::Store => Ok(Call::Store {
            space,
            at,
            bytes: ByteList::of(alloc, b"ab")?,
        }),
        Asked::Fault => Ok(Call::Fault {
            space,
            at,
            write: true,
        }),
        Asked::Spawn => Ok(Call::Spawn),
        Asked::Fork => Ok(Call::Fork { space }),
        Asked::Exit => Ok(Call::Exit { space }),
        Asked::Out => Ok(Call::SwapOut { space, at, len }),
        Asked::In => Ok(Call::SwapIn { space, at, len }),
        Asked::Txn(op) => transaction(alloc, space, op),
        Asked::DontNeed => Ok(Call::DontNeed { space, at, len }),
        Asked::Remap(old, new) => Ok(Call::Remap {
            space,
            at,
            old_len: u64::from(old) * LEN,
            new_len: u64::from(new) * LEN,
        }),
    }
}

/// The reply that is wanted.
fn reply_of(alloc: Global, wanted: Wanted) -> Result<Reply, AllocError> {
    Ok(match wanted {
        Wanted::Ok => Reply::Ok,
        Wanted::At(at) => Reply::At(at),
        Wanted::Bytes(two) => Reply::Bytes(ByteList::of(alloc, &two)?),
        Wanted::Space(new) => Reply::Space(new),
        Wanted::Moved(pages) => Reply::Moved(pages),
        Wanted::Done => Reply::Done,
        Wanted::Hole => Reply::Undone(1, Why::Hole(AT)),
    })
}

fn is_wanted(alloc: Global, reply: &Reply, wanted: Wanted) -> Result<bool, AllocError> {
    Ok(*reply == reply_of(alloc, wanted)?)
}

/// What is seen of a machine: its accounts, and what stands at the page in the space of the call.
type Seen = (Accounts, Option<Status>);

fn seen(plain: &Plain, space: SpaceId) -> Seen
    requires { linked plain.now ≤ plain.now.limits.tables }
{
    (plain.accounts(0), plain.status(space, AT / 4096))
}

/// Whether thread 0 gets the reply, and what is seen then.
fn answer(alloc: Global, plain: &mut Plain, step: Step) -> Result<(bool, Seen), StepFault> {
    let (number, asked, wanted) = step;
    let Some(space) = SpaceId::new(number) else {
        return Err(StepFault::NoMemory);
    };
    let call = call_of(alloc, space, asked)?;
    let reply = plain.step(alloc, 0, &call, 0)?;
    let is_right = is_wanted(alloc, &reply, wanted)?;
    Ok((is_right, seen(plain, space)))
}

/// How many of these steps are as they are told, up to the first that is not, and what is seen then.
fn play(
    alloc: Global,
    plain: &mut Plain,
    steps: &[Step],
) -> Result<(usize, Option<Seen>), StepFault> {
    let mut last = None;
    for (place, step) in steps.iter().enumerate() {
        let (is_right, after) = answer(alloc, plain, *step)?;
        last = Some(after);
        if !is_right {
            return Ok((place, last));
        }
    }
    Ok((steps.len(), last))
}

/// A machine with one file.
fn machine(alloc: Global) -> Result<Plain, AllocError> {
    let limits = Limits {
        levels: 4,
        frames: 4,
        tables: 16,
        swap: 2,
    };
    let bytes = Vec::from_slice(alloc, b"hello")?;
    let mut shelf = Shelf::new(alloc);
    if shelf.add(bytes).is_err() {
        return Err(AllocError);
    }
    Plain::new(alloc, limits, shelf)
}

/// What a new machine makes of these steps.
fn outcome(alloc: Global, steps: &[Step]) -> Result<(usize, Option<Seen>), StepFault> {
    let mut plain = machine(alloc)?;
    play(alloc, &mut plain, steps)
}

#[test]
fn each_call_is_accepted(rt: HostRuntime) -> Result<(), Fail> {
    const STEPS: [Step; 23] = [
        (
            0,
            Asked::Map(MapPlace::Any, Backing::Zero),
            Wanted::At(BASE),
        ),
        (0, Asked::Map(MapPlace::At(AT), FILE), Wanted::At(AT)),
        (0, Asked::Load, Wanted::Bytes(*b"he")),
        (0, Asked::Store, Wanted::Ok),
        (0, Asked::DontNeed, Wanted::Ok),
        (0, Asked::Load, Wanted::Bytes(*b"he")),
        (0, Asked::Remap(1, 2), Wanted::At(AT)),
        (0, Asked::Store, Wanted::Ok),
        (0, Asked::Remap(2, 1), Wanted::At(AT)),
        (0, Asked::Protect, Wanted::Ok),
        (0, Asked::Fork, Wanted::Space(1)),
        (1, Asked::Fault, Wanted::Ok),
        (1, Asked::Out, Wanted::Moved(1)),
        (1, Asked::In, Wanted::Moved(1)),
        (1, Asked::Load, Wanted::Bytes(*b"ab")),
        (0, Asked::Spawn, Wanted::Space(2)),
        (2, Asked::Exit, Wanted::Ok),
        (1, Asked::Txn(UNMAP), Wanted::Done),
        (1, Asked::Txn(PROTECT), Wanted::Hole),
        (1, Asked::Exit, Wanted::Ok),
        (0, Asked::Out, Wanted::Moved(1)),
        (0, Asked::Unmap, Wanted::Ok),
        (
            0,
            Asked::Map(MapPlace::New(AT), Backing::Zero),
            Wanted::At(AT),
        ),
    ];
    const AFTER: Accounts = Accounts {
        frames: 4,
        frames_free: 4,
        frames_mapped: 0,
        swap: 2,
        swap_free: 2,
        swap_used: 0,
        tables: 16,
        linked: 7,
        limbo: 0,
    };
    let found = outcome(rt.alloc(), &STEPS)?;
    let wanted = (STEPS.len(), Some((AFTER, Some(Status::Anon(READ_WRITE)))));
    assert_eq!(rt; found, wanted);
    Ok(())
}

/// Whether a call that wants one page table, where two of three are in limbo, gets the reply that says so.
fn is_lack_told(alloc: Global, plain: &mut Plain) -> Result<bool, StepFault> {
    let reply = plain.step(alloc, 0, &Call::Spawn, 2)?;
    let lack = Reply::NoTables {
        linked: 1,
        limbo: 2,
        need: 1,
    };
    Ok(reply == lack)
}

/// Whether a machine of three page tables tells what it lacks where two are in limbo, and makes no call where three are.
fn counts_limbo(alloc: Global) -> Result<bool, StepFault> {
    let limits = Limits {
        levels: 4,
        frames: 1,
        tables: 3,
        swap: 0,
    };
    let mut plain = Plain::new(alloc, limits, Shelf::new(alloc))?;
    let is_told = is_lack_told(alloc, &mut plain)?;
    let fault = plain.step(alloc, 0, &Call::Spawn, 3);
    Ok(is_told && fault == Err(StepFault::NotLegal))
}

#[test]
fn page_tables_in_limbo_are_not_there(rt: HostRuntime) -> Result<(), Fail> {
    assert!(rt; counts_limbo(rt.alloc())?);
    Ok(())
}
