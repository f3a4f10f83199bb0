//! The commands over devices that move few bytes a call, or fail, and over histories that end too early.
use corten_base::{MemSink, MemSource};
use corten_run::corten_plain;
use std::alloc::{AllocError, Global};
use std::test::Fail;

const SCRIPT: &str =
    "frames 2\ntables 8\nswap 1\nthread\nmap 0 any 1 rw- zero\nstore 0 0x8000000000 6869\nload 0 0x8000000000 3\n";

const HISTORY: &str =
    "corten 2\nframes 2\ntables 8\nswap 1\n0 map 0 any 1 rw- zero = at 0x8000000000\n0 store 0 0x8000000000 6869 = ok\n0 load 0 0x8000000000 3 = bytes 686900\nframes 2 free 1 mapped 1\nswap 1 free 1 used 0\ntables 8 linked 4 limbo 0\n";

/// The same with five levels.
const FIVE: &str =
    "corten 2\nframes 2\ntables 8\nswap 1\nlevels 5\n0 map 0 any 1 rw- zero = at 0x8000000000\n0 store 0 0x8000000000 6869 = ok\n0 load 0 0x8000000000 3 = bytes 686900\nframes 2 free 1 mapped 1\nswap 1 free 1 used 0\ntables 8 linked 5 limbo 0\n";

/// More tables in limbo than there is room for.
const ILLEGAL: &str =
    "corten 1\nframes 2\ntables 4\nswap 1\n0 map 0 any 1 rw- zero = at 0x8000000000\nframes 2 free 2 mapped 0\nswap 1 free 1 used 0\ntables 4 linked 4 limbo 1\n";

const USAGE: &str =
    "usage: cortenmm solo [5] | check | run [5] | load N K | victims N | tlb | save S | restore\n";

/// The image that HISTORY leaves of space 0.
const IMAGE: &str =
    "image 1\nframes 2\ntables 8\nswap 1\npage 0x8000000000 rw- zero live 6869\nend\n";

/// A run, and what builds it.
const RUN: &str = "image 1\nframes 2\ntables 8\nswap 1\nrun 0x8000000000 2 r-- zero\nend\n";

const BUILT: &str =
    "corten 2\nframes 2\ntables 8\nswap 1\n0 map 0 at 0x8000000000 8192 r-- zero = at 0x8000000000\nframes 2 free 2 mapped 0\nswap 1 free 1 used 0\ntables 8 linked 4 limbo 0\n";

/// Devices that move so many bytes a call, and at least one, and whose calls with these numbers fail.
#[derive(Clone, Copy)]
struct Devices {
    piece: usize,
    reads: &'static [u64],
    writes: &'static [u64],
}

const BYTEWISE: Devices = Devices {
    piece: 1,
    reads: &[],
    writes: &[],
};

const LARGE: Devices = Devices {
    piece: 4096,
    reads: &[],
    writes: &[],
};

const FIRST_READ_FAILS: Devices = Devices {
    piece: 4096,
    reads: &[0],
    writes: &[],
};

const FOURTH_READ_FAILS: Devices = Devices {
    piece: 16,
    reads: &[3],
    writes: &[],
};

const FIRST_WRITE_FAILS: Devices = Devices {
    piece: 4096,
    reads: &[],
    writes: &[0],
};

const THIRD_WRITE_FAILS: Devices = Devices {
    piece: 16,
    reads: &[],
    writes: &[2],
};

/// A command over a text, and the status and the text that it ends with.
struct Row {
    words: &'static [&'static str],
    text: &'static str,
    devices: Devices,
    status: u8,
    wanted: &'static str,
}

const ROWS: [Row; 18] = [
    Row {
        words: &["solo"],
        text: SCRIPT,
        devices: BYTEWISE,
        status: 0,
        wanted: HISTORY,
    },
    Row {
        words: &["solo", "5"],
        text: SCRIPT,
        devices: BYTEWISE,
        status: 0,
        wanted: FIVE,
    },
    Row {
        words: &["solo", "4"],
        text: SCRIPT,
        devices: LARGE,
        status: 2,
        wanted: USAGE,
    },
    Row {
        words: &["solo"],
        text: "frames 0\n",
        devices: LARGE,
        status: 1,
        wanted: "bad 1\n",
    },
    Row {
        words: &["sola"],
        text: SCRIPT,
        devices: LARGE,
        status: 2,
        wanted: USAGE,
    },
    Row {
        words: &["solo"],
        text: SCRIPT,
        devices: FIRST_READ_FAILS,
        status: 3,
        wanted: "",
    },
    Row {
        words: &["solo"],
        text: SCRIPT,
        devices: FOURTH_READ_FAILS,
        status: 3,
        wanted: "",
    },
    Row {
        words: &["solo"],
        text: SCRIPT,
        devices: FIRST_WRITE_FAILS,
        status: 4,
        wanted: "",
    },
    Row {
        words: &["solo"],
        text: SCRIPT,
        devices: THIRD_WRITE_FAILS,
        status: 4,
        wanted: "corten 2\nframes 2\ntables 8\nswap ",
    },
    Row {
        words: &["check"],
        text: HISTORY,
        devices: BYTEWISE,
        status: 0,
        wanted: "legal 3\n",
    },
    Row {
        words: &["check"],
        text: ILLEGAL,
        devices: LARGE,
        status: 6,
        wanted: "illegal 8\n",
    },
    Row {
        words: &["save", "0"],
        text: HISTORY,
        devices: BYTEWISE,
        status: 0,
        wanted: IMAGE,
    },
    Row {
        words: &["save", "1"],
        text: HISTORY,
        devices: LARGE,
        status: 8,
        wanted: "nospace\n",
    },
    Row {
        words: &["save", "0"],
        text: ILLEGAL,
        devices: LARGE,
        status: 6,
        wanted: "illegal 8\n",
    },
    Row {
        words: &["save", "0"],
        text: HISTORY,
        devices: THIRD_WRITE_FAILS,
        status: 4,
        wanted: "image 1\nframes 2\ntables 8\nswap 1",
    },
    Row {
        words: &["restore"],
        text: RUN,
        devices: BYTEWISE,
        status: 0,
        wanted: BUILT,
    },
    Row {
        words: &["restore"],
        text: HISTORY,
        devices: LARGE,
        status: 1,
        wanted: "bad 1\n",
    },
    Row {
        words: &["restore"],
        text: RUN,
        devices: FIRST_READ_FAILS,
        status: 3,
        wanted: "",
    },
];

/// A source of a text.
fn source_of(alloc: Global, text: &[u8], devices: Devices) -> Result<MemSource, AllocError> {
    let bytes = Vec::from_slice(alloc, text)?;
    let failing = Vec::from_slice(alloc, devices.reads)?;
    Ok(MemSource::new(bytes, devices.piece.max(1), failing))
}

/// A sink with room for a short history.
fn sink_of(alloc: Global, devices: Devices) -> Result<MemSink, AllocError> {
    let failing = Vec::from_slice(alloc, devices.writes)?;
    MemSink::new(alloc, 10_000, devices.piece.max(1), failing)
}

/// The words of a command.
fn words_of(alloc: Global, texts: &[&str]) -> Result<Vec<String>, AllocError> {
    let mut words = Vec::new(alloc);
    for text in texts {
        words.push(String::from_str(alloc, text)?)?;
    }
    Ok(words)
}

/// Whether a command over a text ends with this status and writes this.
fn ends_with(
    alloc: Global,
    words: &[&str],
    text: &[u8],
    devices: Devices,
    status: u8,
    wanted: &[u8],
) -> Result<bool, AllocError> {
    let words = words_of(alloc, words)?;
    let mut source = source_of(alloc, text, devices)?;
    let mut sink = sink_of(alloc, devices)?;
    let found = corten_plain(alloc, words.as_slice(), &mut source, &mut sink);
    Ok(found == status && sink.bytes() == wanted)
}

/// Whether a row's command ends so.
fn holds(alloc: Global, row: &Row) -> Result<bool, AllocError> {
    let text = row.text.as_bytes();
    let wanted = row.wanted.as_bytes();
    ends_with(alloc, row.words, text, row.devices, row.status, wanted)
}

#[test]
fn commands_end_with_their_status(rt: HostRuntime) -> Result<(), Fail> {
    for row in &ROWS {
        assert!(rt; holds(rt.alloc(), row)?, "status {}", row.status);
    }
    Ok(())
}

/// Whether check refuses a text, which has no last line, by the number of the line that would come next.
fn is_cut_refused(alloc: Global, text: &[u8]) -> Result<bool, AllocError> {
    let newlines = text.iter().filter(|byte| **byte == b'\n').count();
    let wanted = format!(in alloc; "bad {}\n", newlines as u64 + 1)?;
    ends_with(alloc, &["check"], text, LARGE, 1, wanted.as_bytes())
}

#[test]
fn cuts_of_a_history(rt: HostRuntime) -> Result<(), Fail> {
    let text = HISTORY.as_bytes();
    for end in 0..text.len() {
        assert!(rt; is_cut_refused(rt.alloc(), &text[..end])?, "at {end}");
    }
    Ok(())
}
