//! Reading a source to its end.
ghost use Rattle.std.specs.Prelude.{◌≡◌, ◌≤◌, IfOk, vec_len};
ghost use Rattle.byte_streams.specs.Whole.{Ends};

use corten_base::{ReadAnswer, Source};
use std::alloc::{AllocError, Global};

/// How many bytes one read asks for.
const PIECE: usize = 65_536;

/// What became of reading a source to its end.
#[derive(Debug, Drop)]
pub enum ReadWhole {
    /// All that there was, at most as many bytes as the limit says.
    All(Vec<u8>),
    /// A byte after the limit was read.
    TooLong,
    /// The source failed. Nothing is read after that.
    Failed,
}

/// A buffer of so many bytes.
fn buffer_of(alloc: Global, count: usize) -> Result<Vec<u8>, AllocError>
    ensures { IfOk result (λ buffer. vec_len buffer ≡ count) }
{
    vec![in alloc; 0u8; count]
}

/// Reads a source to its end, but no further than behind the limit, a number of bytes.
pub fn read_whole<S: Source>(
    alloc: Global,
    source: &mut S,
    limit: usize,
) -> Result<ReadWhole, AllocError>
    ensures ends { IfOk result (Ends limit (S.left source.old) (S.left source.new) (S.faults source.old) (S.faults source.new)) }
    ensures count { S.faults source.old ≤ S.faults source.new }
{
    let mut piece = buffer_of(alloc, PIECE)?;
    let mut bytes = Vec::new(alloc);
    while bytes.len() <= limit {
        let buffer = piece.as_mut_slice();
        match source.read(buffer) {
            ReadAnswer::Got(count) => bytes.extend_from_slice(buffer.split_at(count).0)?,
            ReadAnswer::End => return Ok(ReadWhole::All(bytes)),
            ReadAnswer::Failed => return Ok(ReadWhole::Failed),
        }
    }
    Ok(ReadWhole::TooLong)
}
