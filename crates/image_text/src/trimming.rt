//! Bytes without the zeros at their end.
ghost use Rattle.std.specs.Prelude.{◌≡◌};
ghost use Rattle.image_text.specs.Items as definitions;

/// The bytes without the zeros at their end.
pub(crate) fn trimmed(bytes: &[u8]) -> &[u8]
    ensures { result.now ≡ definitions.trimmed bytes.now }
{
    let mut rest = bytes;
    while let Some((last, front)) = rest.split_last() {
        if *last != 0 {
            return rest;
        }
        rest = front;
    }
    rest
}
