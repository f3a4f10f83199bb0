//! Scripts read, and call lines read and printed.
use corten_base::Limits;
use mm_script::{ScriptFault, file_of, print_call, push_file, read_call, read_script};
use std::alloc::{AllocError, Global};
use std::test::Fail;

/// Whether these are the limits of a script, its files and each thread's calls, counted.
fn has_counts(alloc: Global, text: &str, wanted: &[u64]) -> Result<bool, ScriptFault> {
    let script = read_script(alloc, text.as_bytes())?;
    let Limits {
        levels,
        frames,
        tables,
        swap,
    } = script.limits;
    let mut counts = Vec::new(alloc);
    for number in [
        u32::from(levels),
        frames,
        tables,
        swap,
        u32::from(script.shelf.count()),
    ] {
        counts.push(u64::from(number))?;
    }
    for thread in script.threads.list() {
        counts.push(thread.list().len() as u64)?;
    }
    Ok(counts.as_slice() == wanted)
}

#[test]
fn scripts_are_read(rt: HostRuntime) -> Result<(), Fail> {
    for (text, counts) in [
        (
            "frames 2\n\ntables 8\n# no swap\nswap 0\nthread\nmap 0 any 1 rw- zero\nstore 0 0x8000000000 6869\n",
            [4, 2, 8, 0, 0, 2].as_slice(),
        ),
        (
            "frames 2\ntables 8\nswap 1\nfile 68656c6c6f\n# no byte\nfile -\nthread\nthread\nspawn\n",
            [4, 2, 8, 1, 2, 0, 1].as_slice(),
        ),
    ] {
        assert!(rt; has_counts(rt.alloc(), text, counts)?, "{text}");
    }
    Ok(())
}

/// The number behind `bad`, or 0.
fn bad(alloc: Global, text: &str) -> u64 {
    match read_script(alloc, text.as_bytes()) {
        Err(ScriptFault::Bad(line)) => line,
        _ => 0,
    }
}

#[test]
fn faulty_lines(rt: HostRuntime) {
    for (text, line) in [
        ("", 1),
        ("frames 0\n", 1),
        ("frames 4097\n", 1),
        ("frames 2\ntables 8\nswap 1\n", 4),
        ("frames 2\n# a remark\n\ntables 1024\n", 4),
        ("frames 2\ntables 8\nswap 1\nthread\nload 0 0x1 1", 5),
        ("frames 2\ntables 8\nswap 1\nfile -\nfile AA\nthread\n", 5),
        ("frames 2\ntables 8\nswap 1\nthread\nfile -\n", 5),
        (
            "frames 2\ntables 8\nswap 1\nthread\nthread\nthread\nthread\nthread\nthread\nthread\nthread\nthread\n",
            12,
        ),
    ] {
        assert_eq!(rt; bad(rt.alloc(), text), line);
    }
}

/// Whether the line is printed of the call that is read from it.
fn is_call_printed_again(alloc: Global, line: &[u8]) -> Result<bool, AllocError> {
    let Some(call) = read_call(alloc, line)? else {
        return Ok(false);
    };
    let text = print_call(alloc, &call)?;
    Ok(text.bytes() == line)
}

#[test]
fn call_lines_are_read_and_printed(rt: HostRuntime) -> Result<(), Fail> {
    for line in [
        "map 0 any 4097 rw- zero",
        "map 63 at 0x8000000000 18446744073709551615 rwx file 15 0",
        "map 7 new 0x0 0 --- file 0 18446744073709551615",
        "unmap 1 0x10000 1",
        "protect 0 0x10000 4096 r-x",
        "load 0 0xffffffffffffffff 4096",
        "store 0 0x0 00ff",
        "fault 0 0x10000 r",
        "fault 62 0x10fff w",
        "spawn",
        "fork 0",
        "exit 63",
        "out 0 0x8000000000 4096",
        "in 1 0x8000000000 8192",
        "dontneed 0 0x8000000000 18446744073709551615",
        "remap 63 0x8000000000 0 18446744073709551615",
        "txn 0 0x8000000000 8192 map new 0x8000000000 4096 rw- zero ; unmap 0x8000001000 1",
        "txn 63 0x0 0 protect 0x0 18446744073709551615 --x",
        "txn 0 0x0 0 map at 0x0 1 r-- file 3 7 ; map at 0x0 1 --- zero",
        "txn 0 0x0 1 unmap 0x0 1 ; unmap 0x0 1 ; unmap 0x0 1 ; unmap 0x0 1 ; unmap 0x0 1 ; unmap 0x0 1 ; unmap 0x0 1 ; unmap 0x0 1 ; unmap 0x0 1 ; unmap 0x0 1 ; unmap 0x0 1 ; unmap 0x0 1 ; unmap 0x0 1 ; unmap 0x0 1 ; unmap 0x0 1 ; unmap 0x0 1",
    ] {
        assert!(rt;
            is_call_printed_again(rt.alloc(), line.as_bytes())?,
            "{line}"
        );
    }
    Ok(())
}

#[test]
fn spellings_of_no_call(rt: HostRuntime) -> Result<(), Fail> {
    for line in [
        "load 0 0x01 1",
        "load 0 0xAB 1",
        "load 0 1 1",
        "load 00 0x1 1",
        "load 64 0x1 1",
        "load 0 0x1 0",
        "load 0 0x1 4097",
        "load  0 0x1 1",
        "store 0 0x1 6",
        "spawn 0",
        "spawn\r",
        "map 0 any 18446744073709551616 rw- zero",
        "map 0 any 1 wr- zero",
        "map 0 any 0x0 1 rw- zero",
        "map 0 at 1 rw- zero",
        "map 0 old 0x0 1 rw- zero",
        "map 0 any 1 rw- file 16 0",
        "map 0 any 1 rw- file 0",
        "map 0 any 1 rw- zero 0",
        "unmap 0 0x0",
        "protect 0 0x0 1 rw",
        "fault 0 0x0 x",
        "fault 0 0x0 rw",
        "fork",
        "fork 64",
        "exit 0 0",
        "out 0 0x0",
        "in 0 0 1",
        "dontneed 0 0x0",
        "dontneed 0 0x0 1 r--",
        "remap 0 0x0 1",
        "remap 0 0x0 1 0x1",
        "remap 0 0x0 1 1 1",
        "txn 0 0x10000 4096",
        "txn 0 0x10000 4096 unmap 0x10000 1 ;",
        "txn 0 0x10000 4096 unmap 0x10000 1 unmap 0x10000 1",
        "txn 0 0x10000 4096 ; unmap 0x10000 1",
        "txn 0 0x10000 4096 unmap 0x10000 1; unmap 0x10000 1",
        "txn 0 0x10000 4096 map any 1 rw- zero",
        "txn 0 0x10000 4096 load 0x10000 1",
        "txn 0 0x0 1 unmap 0x0 1 ; unmap 0x0 1 ; unmap 0x0 1 ; unmap 0x0 1 ; unmap 0x0 1 ; unmap 0x0 1 ; unmap 0x0 1 ; unmap 0x0 1 ; unmap 0x0 1 ; unmap 0x0 1 ; unmap 0x0 1 ; unmap 0x0 1 ; unmap 0x0 1 ; unmap 0x0 1 ; unmap 0x0 1 ; unmap 0x0 1 ; unmap 0x0 1",
    ] {
        assert!(rt; read_call(rt.alloc(), line.as_bytes())?.is_none(), "{line}");
    }
    Ok(())
}

/// Whether the line is printed of the file that is read from it.
fn is_file_printed_again(alloc: Global, line: &[u8]) -> Result<bool, AllocError> {
    let Some(bytes) = file_of(alloc, line)? else {
        return Ok(false);
    };
    let mut text = Vec::new(alloc);
    push_file(&mut text, &bytes)?;
    Ok(text.as_slice() == line)
}

#[test]
fn file_lines_are_read_and_printed(rt: HostRuntime) -> Result<(), Fail> {
    for (line, is_file) in [
        ("file -", true),
        ("file 00ff", true),
        ("file", false),
        ("file ", false),
        ("file --", false),
        ("file 0", false),
        ("file 0F", false),
        ("file 00 ff", false),
        ("files 00", false),
    ] {
        assert_eq!(rt;
            is_file_printed_again(rt.alloc(), line.as_bytes())?,
            is_file,
            "{line}"
        );
    }
    Ok(())
}
