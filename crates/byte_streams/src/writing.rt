//! Writing a text whole.
ghost use Rattle.std.specs.Prelude.{◌≤◌};
ghost use Rattle.std.specs.Bool.{OnTrue, OnFalse};
ghost use Rattle.corten_base.specs.Outside.{Rises};
ghost use Rattle.byte_streams.specs.Streams.{HasWritten, HasWrittenPart};

use corten_base::{Sink, WriteAnswer};

/// Writes all of the bytes, in as many calls as the sink wants. It answers whether it did: where the sink fails, a front
/// of them was written, and nothing more is.
pub fn write_whole<K: Sink>(sink: &mut K, bytes: &[u8]) -> bool
    ensures whole { OnTrue result (HasWritten (K.held sink.old) (K.held sink.new) bytes.now) }
    ensures part { OnFalse result (HasWrittenPart (K.held sink.old) (K.held sink.new) bytes.now) }
    ensures count { K.faults sink.old ≤ K.faults sink.new }
    ensures failed { OnFalse result (Rises (K.faults sink.old) (K.faults sink.new)) }
{
    let mut rest = bytes;
    while !rest.is_empty() {
        match sink.write(rest) {
            WriteAnswer::Took(count) => rest = rest.split_at(count).1,
            WriteAnswer::Failed => return false,
        }
    }
    true
}
