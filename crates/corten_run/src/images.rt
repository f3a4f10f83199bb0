//! Images of spaces, as answers.
ghost use Rattle.std.specs.Prelude.{◌≡◌, [], ◌∷◌, codes, IfOk};
ghost use Rattle.text_words.specs.Spelling.{address};
ghost use Rattle.text_words.specs.Layout.{ended, joined};
ghost use Rattle.history_lines.specs.HistoryText.{HasText};
ghost use Rattle.corten_run.specs.ImageAnswers.{IsSavedAs, IsSavedOf};

use crate::answers::numbered_line;
use crate::ending::Ending;
use corten_base::{SpaceId, TextBytes};
use history_text::{History, Verdict, replay};
use mm_model::Plain;
use space_image::{SaveFault, save_image};
use std::alloc::{AllocError, Global};
use text_words::{Word, push_words};

/// The line of a space that is absent.
fn absent_line(alloc: Global) -> Result<TextBytes, AllocError>
    ensures { IfOk result (λ line. line ≡ ended (codes "nospace")) }
{
    Ok(TextBytes::of(Vec::from_slice(alloc, b"nospace\n")?))
}

/// The line of an address at which a run begins too far in its file.
fn deep_line(alloc: Global, at: u64) -> Result<TextBytes, AllocError>
    ensures { IfOk result (λ line. line ≡ ended (joined (codes "deep" ∷ address at ∷ []))) }
{
    let mut line = Vec::new(alloc);
    push_words(&mut line, &[Word::Plain(b"deep"), Word::Address(at)])?;
    line.push(b'\n')?;
    Ok(TextBytes::of(line))
}

/// The image of a space of the machine, or why it has none.
fn saved(alloc: Global, plain: &Plain, space: SpaceId) -> Result<(Ending, TextBytes), AllocError>
    ensures { IfOk result (λ found. IsSavedOf plain.now space found.0 found.1) }
{
    match save_image(alloc, plain, space) {
        Ok(text) => Ok((Ending::Done, text)),
        Err(SaveFault::NoSpace) => Ok((Ending::NotSaved, absent_line(alloc)?)),
        Err(SaveFault::Deep(at)) => Ok((Ending::NotSaved, deep_line(alloc, at)?)),
        Err(SaveFault::NoMemory) => Err(AllocError),
    }
}

/// What is found of a space of a history: its image, or why it has none, or that the history is not legal.
pub(crate) fn save_space(
    alloc: Global,
    history: &History,
    space: SpaceId,
) -> Result<(Ending, TextBytes), AllocError>
    requires { HasText history.now }
    ensures { IfOk result (λ found. IsSavedAs space history.now found.0 found.1) }
{
    let (verdict, plain) = replay(alloc, history)?;
    match verdict {
        Verdict::Legal(_) => saved(alloc, &plain, space),
        Verdict::Illegal(line) => Ok((
            Ending::Illegal,
            TextBytes::of(numbered_line(alloc, b"illegal ", line)?),
        )),
    }
}
