//! Texts of images: which are read, and which line of the others is the first outside the grammar.
use image_text::{push_image, read_image};
use mm_script::ScriptFault;
use std::alloc::{AllocError, Global};
use std::test::Fail;

/// What becomes of a text.
#[derive(Clone, Copy, Debug, PartialEq, Eq)]
enum Was {
    /// It is read, and printed again it is the same.
    Same,
    /// It is read, and printed again it is another one.
    Other,
    Bad(u64),
}

use Was::{Bad, Same};

/// Two frames, eight page tables, a swap slot.
const SMALL: &str = "image 1\nframes 2\ntables 8\nswap 1\n";

/// The same with a file of two bytes.
const WITH_FILE: &str = "image 1\nframes 2\ntables 8\nswap 1\nfile 6869\n";

const ONE_FRAME: &str = "image 1\nframes 1\ntables 8\nswap 1\n";

const THREE_TABLES: &str = "image 1\nframes 2\ntables 3\nswap 1\n";

const FOUR_TABLES: &str = "image 1\nframes 2\ntables 4\nswap 1\n";

const FIVE_TABLES: &str = "image 1\nframes 2\ntables 5\nswap 1\n";

/// A head, the lines behind it, and what becomes of the text.
const CASES: [(&str, &str, Was); 44] = [
    (SMALL, "end\n", Same),
    (SMALL, "end", Bad(5)),
    (SMALL, "", Bad(5)),
    (SMALL, "end\nx", Bad(6)),
    (SMALL, "levels 4\nend\n", Bad(5)),
    (SMALL, "# a line\nend\n", Bad(5)),
    ("image 2\nframes 2\ntables 8\nswap 1\n", "end\n", Bad(1)),
    ("image 1\nframes 0\ntables 8\nswap 1\n", "end\n", Bad(2)),
    // the bytes of a page
    (SMALL, "page 0x8000000000 rw- zero live 61\nend\n", Same),
    (SMALL, "page 0x8000000000 rw- zero live -\nend\n", Same),
    (SMALL, "page 0x8000000000 rw- zero live 6100\nend\n", Bad(5)),
    (SMALL, "page 0x8000000000 rw- zero live 610061\nend\n", Same),
    // runs that could be one
    (SMALL, "run 0x8000000000 2 rw- zero\nend\n", Same),
    (
        SMALL,
        "run 0x8000000000 1 rw- zero\nrun 0x8000001000 1 rw- zero\nend\n",
        Bad(6),
    ),
    (
        SMALL,
        "run 0x8000000000 1 rw- zero\nrun 0x8000001000 1 r-- zero\nend\n",
        Same,
    ),
    (
        WITH_FILE,
        "run 0x8000000000 2 rw- file 0 0\nrun 0x8000002000 2 rw- file 0 2\nend\n",
        Bad(7),
    ),
    (
        WITH_FILE,
        "run 0x8000000000 2 rw- file 0 0\nrun 0x8000002000 2 rw- file 0 3\nend\n",
        Same,
    ),
    // page tables
    (SMALL, "levels 5\nrun 0x8000000000 2 rw- zero\nend\n", Same),
    (
        FOUR_TABLES,
        "levels 5\nrun 0x8000000000 2 rw- zero\nend\n",
        Bad(6),
    ),
    (
        FIVE_TABLES,
        "levels 5\nrun 0x8000000000 2 rw- zero\nend\n",
        Same,
    ),
    (FOUR_TABLES, "run 0x8000000000 2 rw- zero\nend\n", Same),
    (THREE_TABLES, "run 0x8000000000 2 rw- zero\nend\n", Bad(5)),
    (THREE_TABLES, "run 0x8000000000 512 rw- zero\nend\n", Same),
    (FOUR_TABLES, "run 0x8000001000 512 rw- zero\nend\n", Bad(5)),
    (FIVE_TABLES, "run 0x8000001000 512 rw- zero\nend\n", Same),
    (
        "image 1\nframes 2\ntables 1\nswap 1\n",
        "run 0x8000000000 134217728 rw- zero\nend\n",
        Same,
    ),
    // files, and places in them
    (WITH_FILE, "run 0x8000000000 2 rw- file 0 0\nend\n", Same),
    (WITH_FILE, "run 0x8000000000 2 rw- file 1 0\nend\n", Bad(6)),
    (
        WITH_FILE,
        "run 0x8000000000 2 rw- file 0 1099511627776\nend\n",
        Same,
    ),
    (
        WITH_FILE,
        "run 0x8000000000 2 rw- file 0 1099511627777\nend\n",
        Bad(6),
    ),
    (
        WITH_FILE,
        "page 0x8000000000 rw- file 0 0 out 61\nend\n",
        Same,
    ),
    (
        WITH_FILE,
        "page 0x8000000000 rw- file 0 1 out 61\nend\n",
        Bad(6),
    ),
    (SMALL, "run 0x10000 1 rw- zero\nfile 61\nend\n", Bad(6)),
    // frames, slots and pages
    (
        SMALL,
        "page 0x8000000000 rw- zero out 61\npage 0x8000001000 rw- zero out 61\nend\n",
        Bad(6),
    ),
    (
        ONE_FRAME,
        "page 0x8000000000 rw- zero live 61\npage 0x8000001000 rw- zero live 61\nend\n",
        Bad(6),
    ),
    (
        SMALL,
        "page 0x8000001000 rw- zero live 61\npage 0x8000001000 rw- zero out 61\nend\n",
        Bad(6),
    ),
    (SMALL, "page 0xf000 rw- zero live 61\nend\n", Bad(5)),
    (SMALL, "page 0x10000 rw- zero live 61\nend\n", Same),
    (SMALL, "page 0x10001 rw- zero live 61\nend\n", Bad(5)),
    (SMALL, "page 0x7fffffffe000 rw- zero live 61\nend\n", Same),
    (SMALL, "page 0x7ffffffff000 rw- zero live 61\nend\n", Bad(5)),
    (SMALL, "run 0x10000 0 rw- zero\nend\n", Bad(5)),
    (
        SMALL,
        "run 0x10000 18446744073709551615 rw- zero\nend\n",
        Bad(5),
    ),
    (SMALL, "run 0x10000 1 rw-  zero\nend\n", Bad(5)),
];

/// What becomes of a text.
fn outcome(alloc: Global, text: &[u8]) -> Result<Was, AllocError> {
    match read_image(alloc, text) {
        Ok(image) => {
            let mut out = Vec::new(alloc);
            push_image(&mut out, &image)?;
            Ok(if out.as_slice() == text {
                Was::Same
            } else {
                Was::Other
            })
        }
        Err(ScriptFault::Bad(line)) => Ok(Was::Bad(line)),
        Err(ScriptFault::NoMemory) => Err(AllocError),
    }
}

/// What becomes of a text of two parts.
fn joined(alloc: Global, head: &str, rest: &str) -> Result<Was, AllocError> {
    let mut text = Vec::from_slice(alloc, head.as_bytes())?;
    text.extend_from_slice(rest.as_bytes())?;
    outcome(alloc, text.as_slice())
}

#[test]
fn images_are_read(rt: HostRuntime) -> Result<(), Fail> {
    for (head, rest, was) in &CASES {
        assert_eq!(rt; joined(rt.alloc(), head, rest)?, *was, "{head}{rest}");
    }
    Ok(())
}

/// A line of each kind.
const WHOLE: &str =
    "image 1\nframes 2\ntables 9\nswap 1\nlevels 5\nfile 6869\nfile -\nrun 0x10000 3 r-- file 0 7\npage 0x8000000000 rw- zero live 6100000062\nrun 0x8000001000 512 rw- zero\npage 0x8000201000 rwx file 0 0 out -\nend\n";

/// Whether a text without its end is refused at the line that would come next.
fn is_cut(alloc: Global, text: &[u8]) -> Result<bool, AllocError> {
    let newlines = text.iter().filter(|byte| **byte == b'\n').count();
    Ok(outcome(alloc, text)? == Was::Bad(newlines as u64 + 1))
}

#[test]
fn cuts_of_an_image(rt: HostRuntime) -> Result<(), Fail> {
    let text = WHOLE.as_bytes();
    assert_eq!(rt; outcome(rt.alloc(), text)?, Was::Same);
    for end in 0..text.len() {
        assert!(rt; is_cut(rt.alloc(), &text[..end])?, "at {end}");
    }
    Ok(())
}
