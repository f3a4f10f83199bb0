//! Numbers, addresses, bytes and permissions, printed and read; the words of a line and the lines of a text.
use corten_base::Perm;
use std::alloc::{AllocError, Global};
use std::test::Fail;
use text_words::{Lines, Word, Words, push_words, read_address, read_hex, read_number, read_perm};

const READ_WRITE: Perm = Perm {
    read: true,
    write: true,
    exec: false,
};

/// Whether words are printed so.
fn are_printed(alloc: Global, words: &[Word<'_>], wanted: &[u8]) -> Result<bool, AllocError> {
    let mut out = Vec::new(alloc);
    push_words(&mut out, words)?;
    Ok(out.as_slice() == wanted)
}

#[test]
fn words_are_printed(rt: HostRuntime) -> Result<(), Fail> {
    let words = [
        Word::Plain(b"store"),
        Word::Number(0),
        Word::Number(u64::MAX),
        Word::Address(0),
        Word::Address(0x80_0000_0000),
        Word::Hex(b"hi\x00"),
        Word::Permission(READ_WRITE),
    ];
    let wanted = b"store 0 18446744073709551615 0x0 0x8000000000 686900 rw-";
    assert!(rt; are_printed(rt.alloc(), &words, wanted)?);
    Ok(())
}

#[test]
fn numbers_and_addresses_are_read(rt: HostRuntime) {
    for (word, number, address) in [
        ("0", Some(0), None),
        ("18446744073709551615", Some(u64::MAX), None),
        ("18446744073709551616", None, None),
        ("", None, None),
        ("00", None, None),
        ("+1", None, None),
        ("0x0", None, Some(0)),
        ("0xffffffffffffffff", None, Some(u64::MAX)),
        ("0x10000000000000000", None, None),
        ("0x01", None, None),
        ("0xAB", None, None),
        ("0x", None, None),
    ] {
        assert_eq!(rt; read_number(word.as_bytes()), number);
        assert_eq!(rt; read_address(word.as_bytes()), address);
    }
}

/// Whether a word spells these bytes, or none where there are none.
fn spells(alloc: Global, word: &[u8], bytes: &[u8]) -> Result<bool, AllocError> {
    match read_hex(alloc, word)? {
        Some(found) => Ok(found.as_slice() == bytes),
        None => Ok(bytes.is_empty()),
    }
}

#[test]
fn bytes_and_permissions_are_read(rt: HostRuntime) -> Result<(), Fail> {
    for (word, bytes) in [("686900", "hi\x00"), ("6", ""), ("6A", "")] {
        assert!(rt;
            spells(rt.alloc(), word.as_bytes(), bytes.as_bytes())?,
            "{word}"
        );
    }
    for (word, perm) in [("rw-", Some(READ_WRITE)), ("wr-", None), ("rw", None)] {
        assert_eq!(rt; read_perm(word.as_bytes()), perm);
    }
    Ok(())
}

#[test]
fn words_have_one_space_between_them(rt: HostRuntime) {
    let mut words = Words::of(b"load  ; 0");
    for wanted in [4, 0] {
        assert_eq!(rt; words.next_word().map(|word| word.len()), Some(wanted));
    }
    for (word, taken) in [("0", false), (";", true), ("0", true), ("", false)] {
        assert_eq!(rt; words.take_word(word.as_bytes()), taken);
    }
    assert!(rt; words.is_done());
}

#[test]
fn a_line_ends_with_its_newline(rt: HostRuntime) {
    let mut lines = Lines::of(b"one\n\nrest");
    for wanted in [Some(3), Some(0), None] {
        assert_eq!(rt; lines.next_line().map(|line| line.len()), wanted);
    }
    assert_eq!(rt; lines.taken(), 2);
    assert!(rt; !lines.is_done());
}
