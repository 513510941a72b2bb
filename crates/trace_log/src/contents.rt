// A whole log.
ghost use Rattle.std.specs.Prelude.{IfOk};
ghost use Rattle.trace_log.specs.Whole.{ReadsLog, Stops, StoodAll, ReturnedAll, records_of, refusal_of};

use crate::reader::Reader;
use crate::record::Record;
use faults::ReaderFault;
use std::alloc::{AllocError, Global};

// A record and the place of its first byte.
#[derive(Drop)]
pub struct Placed<'a> {
    pub place: usize,
    pub record: Record<'a>,
}

// Why a log is refused, and the place of the record that is refused. No `Placed` of a fault: two words say what each is.
#[derive(Drop)]
pub struct Refusal {
    pub place: usize,
    pub fault: ReaderFault,
}

// The records of a log, up to its end or to the one that is refused.
#[derive(Drop)]
pub struct Contents<'a> {
    pub records: Vec<Placed<'a>>,
    pub refusal: Option<Refusal>,
}

// The refusal of the record at a place. Want of memory is no refusal.
fn refused(place: usize, fault: ReaderFault) -> Result<Refusal, AllocError>
    ensures { Stops place fault result }
{
    match fault {
        ReaderFault::Entry(_) => Err(AllocError),
        _ => Ok(Refusal { place, fault }),
    }
}

// Reads a log to its end, or to the record that is refused.
pub fn read_all<'a>(heap: Global, log: &'a [u8]) -> Result<Contents<'a>, AllocError>
    ensures reads { IfOk result (λ c. ReadsLog log.now (records_of c) (refusal_of c)) }
    ensures stood { IfOk result (StoodAll log.now) }
    ensures returned { IfOk result (ReturnedAll log.now) }
{
    let mut records = Vec::new(heap);
    let mut reader = match Reader::open(log) {
        Ok(reader) => reader,
        Err(fault) => {
            let refusal = Some(refused(0, fault)?);
            return Ok(Contents { records, refusal });
        }
    };
    let refusal = loop {
        let place = reader.place();
        match reader.next(heap) {
            Ok(Some(record)) => records.push(Placed { place, record })?,
            Ok(None) => break None,
            Err(fault) => break Some(refused(place, fault)?),
        }
    };
    Ok(Contents { records, refusal })
}
