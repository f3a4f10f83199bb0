//! The shared types: permissions, lists, and sources and sinks that fail where they are told.
use bitflags::Flags;
use corten_base::{
    ByteList, Call, CallList, Entry, EntryList, Gate, MemSink, MemSource, OpenGate, Perm,
    ReadAnswer, Reply, Sink, Source, SpaceId, TextBytes, ThreadList, WriteAnswer,
};
use std::alloc::{AllocError, Global};
use std::test::Fail;

fn moves_between_threads<T: Send + Sync>(_value: &T) {}

#[test]
fn permissions_are_three_bits(rt: HostRuntime) -> Result<(), Fail> {
    const NAMES: [(&str, u8); 3] = [("R", 1), ("W", 2), ("X", 4)];
    for (name, bits) in NAMES {
        let perm = Perm::from_name(name).ok_or("a permission")?;
        assert_eq!(rt; perm.bits(), bits);
    }
    assert_eq!(rt; Perm::from_bits_retain(0b1111_1101), Perm::R.union(Perm::X));
    assert_eq!(rt; Perm::from_bits(8), None);
    Ok(())
}

/// A store of two bytes, of which the second was written over.
fn store(alloc: Global, space: SpaceId) -> Result<Call, AllocError> {
    let mut bytes = ByteList::of(alloc, b"h!")?;
    bytes.write_at(1, b"i");
    Ok(Call::Store {
        space,
        at: 65_536,
        bytes,
    })
}

/// Whether an entry is found in a list that was made of a copy of it.
fn keeps_its_entry(alloc: Global, entry: &Entry) -> Result<bool, AllocError> {
    let entries = EntryList::of(vec![in alloc; entry.clone()?]?);
    Ok(entries.list().first() == Some(entry))
}

/// How many threads have the call, in a list that was made of one thread with it.
fn thread_count(alloc: Global, call: Call) -> Result<usize, AllocError> {
    let calls = CallList::of(vec![in alloc; call]?);
    let threads = ThreadList::of(vec![in alloc; calls]?);
    Ok(threads.list().len())
}

#[test]
fn lists_keep_what_they_are_made_of(rt: HostRuntime) -> Result<(), Fail> {
    let space = SpaceId::new(1).ok_or("1 is a space")?;
    let entry = Entry {
        thread: 0,
        call: store(rt.alloc(), space)?,
        reply: Reply::Ok,
    };
    moves_between_threads(&entry);
    assert!(rt; keeps_its_entry(rt.alloc(), &entry)?);
    assert_eq!(rt; thread_count(rt.alloc(), entry.call)?, 1);
    Ok(())
}

#[test]
fn texts_keep_their_bytes(rt: HostRuntime) -> Result<(), Fail> {
    let text = TextBytes::of(vec![in rt.alloc(); 1, 2]?);
    assert_eq!(rt; text.bytes(), [1, 2].as_slice());
    Ok(())
}

#[test]
fn a_source_in_memory_fails_where_it_is_told(rt: HostRuntime) -> Result<(), Fail> {
    let bytes = [1, 2, 3].to_vec(rt.alloc())?;
    let mut source = MemSource::new(bytes, 2, [1].to_vec(rt.alloc())?);
    let mut buf = [0; 4];
    let wanted = [
        ReadAnswer::Got(2),
        ReadAnswer::Failed,
        ReadAnswer::Got(1),
        ReadAnswer::End,
    ];
    for answer in wanted {
        assert_eq!(rt; source.read(&mut buf), answer);
    }
    assert_eq!(rt; buf, [3, 2, 0, 0]);
    Ok(())
}

#[test]
fn a_sink_in_memory_fails_where_it_is_told_and_at_full_room(rt: HostRuntime) -> Result<(), Fail> {
    let mut sink = MemSink::new(rt.alloc(), 3, 2, [1].to_vec(rt.alloc())?)?;
    let wanted = [
        (b"ab", WriteAnswer::Took(2)),
        (b"cd", WriteAnswer::Failed),
        (b"cd", WriteAnswer::Took(1)),
        (b"de", WriteAnswer::Failed),
    ];
    for (bytes, answer) in wanted {
        assert_eq!(rt; sink.write(bytes), answer);
    }
    assert_eq!(rt; sink.bytes(), b"abc".as_slice());
    Ok(())
}

#[test]
fn an_open_gate_does_nothing(_rt: HostRuntime) {
    let mut gate = OpenGate;
    gate.before(0, 0);
    gate.held(0, 0);
    gate.after(0, 0, 0);
    moves_between_threads(&gate);
}
