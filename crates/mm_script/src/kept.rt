//! The lines of a script that are not skipped.
ghost use Rattle.std.specs.Prelude.{◌≡◌, IfSome, IfNone};
ghost use Rattle.mm_script.specs.ScriptText.{is_skipped};
ghost use Rattle.mm_script.specs.Reading.{NextLine, NoNext};

use text_words::Lines;

/// Takes the next line that is not skipped, and the skipped ones before it.
pub(crate) fn next_kept<'a>(lines: &mut Lines<'a>) -> Option<&'a [u8]>
    ensures line { IfSome result (λ line. NextLine lines.old lines.new line.now) }
    ensures none { IfNone result (NoNext lines.old lines.new) }
{
    while let Some(line) = lines.next_line() {
        if !skips(line) {
            return Some(line);
        }
    }
    None
}

/// Whether a line is skipped.
fn skips(line: &[u8]) -> bool
    ensures { result ≡ is_skipped line.now }
{
    line.is_empty() || line[0] == b'#'
}
