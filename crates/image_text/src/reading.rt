//! Images, read from their texts.
ghost use Rattle.std.specs.Prelude.{◌≡◌, ◌≢◌, ◌++◌, ◌∷◌, [], map, ◌↔◌, IsTrue, IfOk, IfErr};
ghost use Rattle.text_words.specs.Passing.{Passes, FaultFrom};
ghost use Rattle.mm_script.specs.CallLine.{IsWithin};
ghost use Rattle.mm_script.specs.ScriptText.{AreLimits, file_lines, IfBad};
ghost use Rattle.image_text.specs.Images.{ImageParts, IsImage};
ghost use Rattle.image_text.specs.ImageText.{head_lines, item_line, end_line, AreImageLines, IsImageText, IsFirstFault};
ghost use Rattle.image_text.specs.Reading.{HasNoLevels};

use crate::draft::Draft;
use crate::header::read_limits;
use crate::image::Image;
use corten_base::Limits;
use mm_script::ScriptFault;
use std::alloc::Global;
use text_words::Lines;

/// Whether a line is the last one.
fn is_end(line: &[u8]) -> bool
    ensures { IsTrue result ↔ (line.now ≡ end_line) }
{
    line == b"end".as_slice()
}

/// Takes the lines behind the limits.
fn read_body(alloc: Global, limits: Limits, lines: &mut Lines<'_>) -> Result<Image, ScriptFault>
    requires limits { AreLimits limits }
    requires levels { IsWithin 4 5 limits.levels }
    requires next { HasNoLevels limits.levels lines.old.bytes }
    ensures right { IfOk result (λ image. IsImage image × (image.limits ≡ limits)) }
    ensures ok { IfOk result (λ image. Passes lines.old lines.new
        (file_lines image.files ++ (map item_line image.items ++ end_line ∷ []))) }
    ensures bad { IfErr result (λ fault. IfBad fault (FaultFrom AreImageLines lines.old (head_lines limits))) }
{
    let mut draft = Draft::new(alloc, limits);
    while let Some(line) = lines.next_line() {
        if is_end(line) {
            return Ok(draft.done());
        }
        if !draft.take_line(alloc, line)? {
            return Err(ScriptFault::Bad(lines.taken()));
        }
    }
    Err(ScriptFault::Bad(lines.taken() + 1))
}

/// The image whose text these bytes are.
pub fn read_image(alloc: Global, bytes: &[u8]) -> Result<Image, ScriptFault>
    ensures found { IfOk result (IsImageText bytes.now) }
    // No other image has this text.
    ensures only { IfOk result (λ image. (other : ImageParts) → IsImageText bytes.now other → other ≡ image) }
    // Bad(n): line n is the first outside the grammar, and no image has this text.
    ensures bad { IfErr result (λ fault. IfBad fault (IsFirstFault bytes.now)) }
    ensures none { IfErr result (λ fault. IfBad fault (λ n. (image : ImageParts) → ¬ (IsImageText bytes.now image))) }
{
    let mut lines = Lines::of(bytes);
    let limits = read_limits(&mut lines)?;
    let image = read_body(alloc, limits, &mut lines)?;
    if lines.is_done() {
        Ok(image)
    } else {
        Err(ScriptFault::Bad(lines.taken() + 1))
    }
}
