//! Histories read, written and checked.
use corten_base::MemSink;
use history_text::{Verdict, check, print_entry, read_entry, read_history, write_history};
use mm_script::ScriptFault;
use std::alloc::{AllocError, Global};
use std::test::Fail;

const TABLES: &str =
    "corten 2\nframes 2\ntables 4\nswap 0\n7 map 0 any 1 rw- zero = notables 1 2 3\n0 load 0 0x0 1 = segv 0x0\n0 map 0 any 0 rw- zero = einval\nframes 2 free 2 mapped 0\nswap 0 free 0 used 0\ntables 4 linked 1 limbo 3\n";

const WRONG: &str =
    "corten 2\nframes 2\ntables 8\nswap 1\nfile 68656c6c6f\nfile -\n0 map 0 any 8192 r-- file 0 0 = at 0x8000000000\n0 load 0 0x8000000000 6 = bytes 68656c6c6f01\nframes 2 free 1 mapped 1\nswap 1 free 1 used 0\ntables 8 linked 4 limbo 0\n";

const FIVE: &str =
    "corten 2\nframes 2\ntables 8\nswap 1\nlevels 5\nfile -\n0 dontneed 0 0x10000 1 = hole 0x10000\n0 remap 0 0x10000 1 1 = ok\nframes 2 free 2 mapped 0\nswap 1 free 1 used 0\ntables 8 linked 1 limbo 0\n";

const EARLIER: &str =
    "corten 1\nframes 2\ntables 8\nswap 1\n0 spawn = space 1\nframes 2 free 2 mapped 0\nswap 1 free 1 used 0\ntables 8 linked 2 limbo 0\n";

/// The same history in version 2.
const EARLIER_ANEW: &str =
    "corten 2\nframes 2\ntables 8\nswap 1\n0 spawn = space 1\nframes 2 free 2 mapped 0\nswap 1 free 1 used 0\ntables 8 linked 2 limbo 0\n";

/// What is found of a history whose text is written anew so.
fn found(alloc: Global, text: &[u8], anew: &[u8]) -> Result<Option<Verdict>, ScriptFault> {
    let history = read_history(alloc, text)?;
    let verdict = check(alloc, &history)?;
    let mut sink = MemSink::new(alloc, 10_000, 4096, Vec::new(alloc))?;
    let _ = write_history(
        alloc,
        history.limits,
        &history.shelf,
        history.entries.list(),
        &history.accounts,
        &mut sink,
    );
    Ok((sink.bytes() == anew).then_some(verdict))
}

#[test]
fn histories_are_read_checked_and_written(rt: HostRuntime) -> Result<(), Fail> {
    for (text, anew, verdict) in [
        (TABLES, TABLES, Verdict::Legal(3)),
        (WRONG, WRONG, Verdict::Illegal(8)),
        (FIVE, FIVE, Verdict::Illegal(8)),
        (EARLIER, EARLIER_ANEW, Verdict::Legal(1)),
    ] {
        assert_eq!(rt;
            found(rt.alloc(), text.as_bytes(), anew.as_bytes())?,
            Some(verdict)
        );
    }
    Ok(())
}

/// The number behind `bad`, or 0.
fn bad(alloc: Global, text: &[u8]) -> u64 {
    match read_history(alloc, text) {
        Err(ScriptFault::Bad(line)) => line,
        _ => 0,
    }
}

#[test]
fn faulty_lines(rt: HostRuntime) {
    for (text, line) in [
        ("", 1),
        ("corten 3\n", 1),
        ("corten 1\n\n", 2),
        ("corten 2\nlevels 5\n", 2),
        ("corten 1\nframes 2\ntables 8\nswap 1\nlevels 5\n", 5),
        ("corten 2\nframes 2\ntables 8\nswap 1\nlevels 4\n", 5),
        (
            "corten 2\nframes 2\ntables 8\nswap 1\nlevels 5\nlevels 5\n",
            6,
        ),
        (
            "corten 2\nframes 2\ntables 8\nswap 1\nfile -\nlevels 5\n",
            6,
        ),
        (
            "corten 1\nframes 2\ntables 8\nswap 1\n0 dontneed 0 0x0 1 = ok\n",
            5,
        ),
        (
            "corten 1\nframes 2\ntables 8\nswap 1\n0 remap 0 0x0 1 1 = einval\n",
            5,
        ),
        ("corten 1\nframes 2\ntables 8\nswap 1\n# a remark\n", 5),
        (
            "corten 1\nframes 2\ntables 8\nswap 1\nframes 2 free 2 mapped 4294967296\n",
            5,
        ),
        ("corten 1\nframes 2\ntables 8\nswap 1\nfile 00\nfile 0\n", 6),
        (
            "corten 1\nframes 2\ntables 8\nswap 1\nfile 00\n0 unmap 0 0x0 1 = einval\nfile 00\n",
            7,
        ),
    ] {
        assert_eq!(rt; bad(rt.alloc(), text.as_bytes()), line);
    }
}

/// Whether the line is printed of the answered call that is read from it.
fn is_printed_again(alloc: Global, line: &[u8]) -> Result<bool, AllocError> {
    let Some(entry) = read_entry(alloc, line)? else {
        return Ok(false);
    };
    let text = print_entry(alloc, &entry)?;
    Ok(text.bytes() == line)
}

#[test]
fn entries_are_printed_as_read(rt: HostRuntime) -> Result<(), Fail> {
    for line in [
        "7 map 0 any 1 rw- zero = ok",
        "0 map 0 new 0x1000 1 r-x file 15 0 = at 0x8000000000",
        "0 load 0 0x0 1 = bytes 00ff",
        "0 spawn = space 63",
        "0 out 63 0x0 1 = moved 4294967295",
        "0 txn 0 0x0 1 unmap 0x0 1 = done",
        "0 load 0 0x0 1 = undone 1 einval",
        "0 txn 0 0x0 1 map new 0x1000 1 rw- zero ; protect 0x0 1 --- = undone 16 exists 0x1000",
        "0 load 0 0x0 1 = undone 2 hole 0x1000",
        "0 unmap 0 0x1000 1 = einval",
        "0 exit 63 = nospace",
        "0 fork 0 = nospaces",
        "0 fault 0 0x0 w = noroom",
        "0 map 0 at 0x1000 1 --- zero = exists 0x1000",
        "0 protect 0 0x1000 1 r-- = hole 0x1000",
        "0 load 0 0x0 1 = segv 0x0",
        "0 store 0 0x1000 00 = denied 0x1000",
        "0 load 0 0x0 1 = bus 0x1000",
        "0 load 0 0x0 1 = notables 1 2 18446744073709551615",
        "0 load 0 0x0 1 = noframes 1 2",
        "0 in 0 0x1000 1 = noswap 1 2",
        "0 dontneed 0 0x1000 1 = ok",
        "0 remap 0 0x1000 1 4096 = at 0x2000",
    ] {
        assert!(rt; is_printed_again(rt.alloc(), line.as_bytes())?, "{line}");
    }
    Ok(())
}

#[test]
fn spellings_of_no_entry(rt: HostRuntime) -> Result<(), Fail> {
    for line in [
        "8 load 0 0x0 1 = segv 0x0",
        "0 load 0 0x0 1 = segv 0x00",
        "0 load 0 0x0 1 = ok ",
        "0 load 0 0x0 1 =ok",
        "0 load 0 0x0 1",
        "0 load 0 0x0 1 = bytes",
        "0 load 0 0x0 1 = space 64",
        "0 load 0 0x0 1 = moved 4294967296",
        "0 load 0 0x0 1 = undone 0 einval",
        "0 load 0 0x0 1 = undone 17 einval",
        "0 load 0 0x0 1 = undone 1 nospace",
        "0 load 0 0x0 1 = noswap 1",
        "0 load 0 0x0 1 = notables 1 4294967296 3",
        "0 spawn 0 = space 1",
    ] {
        assert!(rt;
            read_entry(rt.alloc(), line.as_bytes())?.is_none(),
            "{line}"
        );
    }
    Ok(())
}
