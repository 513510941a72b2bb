// A log's records, one at a time.
ghost use Rattle.std.specs.Prelude.{◌≡◌, ◌-◌, ◌≤◌, length};

use crate::front::front;
use crate::record::Record;
use faults::ReaderFault;
use std::alloc::Global;

// The only version that there is.
const VERSION: u8 = 1;

// Stands before a record of a log or at its end.
#[derive(Drop)]
pub struct Reader<'a> {
    // How many bytes the log has, of which `left` is the end: the place of the reader is told by the two.
    size: usize,
    // The bytes that are not read yet.
    left: &'a [u8],
    ghost inside: { length left.now ≤ size },
}

impl<'a> Reader<'a> {
    ghost use Rattle.trace_log.specs.Reading.{Next, Stood, Returned, Opens};

    // A reader before the first record; 17 where the log is empty or its version is not 1.
    pub fn open(log: &'a [u8]) -> Result<Reader<'a>, ReaderFault>
        ensures { Opens log.now result }
    {
        let [VERSION, left @ ..] = log else {
            return Err(ReaderFault::BadVersion);
        };
        Ok(Reader {
            size: log.len(),
            left,
        })
    }

    // Where the reader stands: the number of bytes before it.
    pub fn place(&self) -> usize
        ensures { result ≡ self.now.size - length self.now.left.now }
    {
        self.size - self.left.len()
    }

    // The next record; none at the end. A record that is refused leaves the reader before it.
    pub fn next(&mut self, heap: Global) -> Result<Option<Record<'a>>, ReaderFault>
        ensures answer { Next self.old.left.now self.new.left.now result }
        ensures stood { Stood self.old.left.now self.new.left.now result }
        ensures returned { Returned self.old.left.now self.new.left.now result }
        ensures size { self.new.size ≡ self.old.size }
    {
        let Some((record, after)) = front(heap, self.left)? else {
            return Ok(None);
        };
        self.left = after;
        Ok(Some(record))
    }
}
