//! The first words of operations of a transaction.
ghost use Rattle.std.specs.Prelude.{◌≡◌, ◌≢◌, IfSome, IfNone};
ghost use Rattle.mm_script.specs.declared.op_names.OpName.{OpName};
ghost use Rattle.mm_script.specs.CallNames.{op_name_word};

/// The first word of an operation.
#[derive(Clone, Copy)]
pub(crate) enum OpName {
    Map,
    Unmap,
    Protect,
}

/// Which operation's first word this is.
pub(crate) fn op_name(word: &[u8]) -> Option<OpName>
    ensures found { IfSome result (λ name. word.now ≡ op_name_word name) }
    ensures none { IfNone result ((name : OpName) → word.now ≢ op_name_word name) }
{
    if word == b"map".as_slice() {
        Some(OpName::Map)
    } else if word == b"unmap".as_slice() {
        Some(OpName::Unmap)
    } else if word == b"protect".as_slice() {
        Some(OpName::Protect)
    } else {
        None
    }
}
