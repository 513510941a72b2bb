// The record at the front of some bytes.
ghost use Rattle.std.specs.Prelude.{◌≡◌, ◌+◌, ◌*◌};
ghost use Rattle.trace_log.specs.Reading.{Finds};

use crate::parse::parse;
use crate::record::Record;
use faults::ReaderFault;
use std::alloc::Global;

// How many bytes a record has after its length.
fn record_size(high: u8, low: u8) -> usize
    ensures { result ≡ high * 256 + low }
{
    usize::from(u16::from_be_bytes([high, low]))
}

// The record at the front of some bytes, and the bytes after it; none where there are no bytes.
pub fn front(heap: Global, bytes: &[u8]) -> Result<Option<(Record<'_>, &[u8])>, ReaderFault>
    ensures { Finds bytes.now result }
{
    if bytes.is_empty() {
        return Ok(None);
    }
    let [high, low, rest @ ..] = bytes else {
        return Err(ReaderFault::Cut);
    };
    let (frame, after) = rest
        .split_at_checked(record_size(*high, *low))
        .ok_or(ReaderFault::Cut)?;
    let (letter, fields) = frame.split_first().ok_or(ReaderFault::BadLength)?;
    let record = parse(heap, *letter, fields)?;
    Ok(Some((record, after)))
}
