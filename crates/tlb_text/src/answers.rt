//! The lines of answers, written.
ghost use Rattle.std.specs.Prelude.{◌≡◌, ◌++◌, OnOk};
ghost use Rattle.text_words.specs.Layout.{ended};
ghost use Rattle.tlb_text.specs.EventText.{answer_line};

use std::alloc::AllocError;
use text_words::{Word, push_words};
use tlb_core::TlbAnswer;

/// Adds an answer, without a newline.
fn push_words_of(out: &mut Vec<u8>, answer: TlbAnswer) -> Result<(), AllocError>
    ensures { OnOk result (out.new.items ≡ out.old.items ++ answer_line answer) }
{
    match answer {
        TlbAnswer::At(frame) => push_words(
            out,
            &[Word::Plain(b"at"), Word::Number(u64::from(frame))],
        ),
        TlbAnswer::Used => push_words(out, &[Word::Plain(b"used")]),
        TlbAnswer::NoFree => push_words(out, &[Word::Plain(b"nofree")]),
        TlbAnswer::None => push_words(out, &[Word::Plain(b"none")]),
        TlbAnswer::Ok => push_words(out, &[Word::Plain(b"ok")]),
        TlbAnswer::Hit(frame) => push_words(
            out,
            &[Word::Plain(b"hit"), Word::Number(u64::from(frame))],
        ),
        TlbAnswer::Miss => push_words(out, &[Word::Plain(b"miss")]),
        TlbAnswer::Idle => push_words(out, &[Word::Plain(b"idle")]),
        TlbAnswer::Wait(cpu) => push_words(
            out,
            &[Word::Plain(b"wait"), Word::Number(u64::from(cpu))],
        ),
    }
}

/// Adds an answer's line. After want of memory some of it may stand there.
pub(crate) fn push_answer(out: &mut Vec<u8>, answer: TlbAnswer) -> Result<(), AllocError>
    ensures { OnOk result (out.new.items ≡ out.old.items ++ ended (answer_line answer)) }
{
    push_words_of(out, answer)?;
    out.push(b'\n')?;
    Ok(())
}
