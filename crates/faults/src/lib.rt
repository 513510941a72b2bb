// Why input is refused. Each layer has its own faults, and the layer above carries them whole, so that a refusal keeps its number up
// to the printed line.
#![tactic(auto)]

ghost use Rattle.std.specs.Prelude.{◌≡◌};
ghost use Rattle.faults.specs.declared.EntryFault.TheVariants.{Order, NoMemory};
ghost use Rattle.faults.specs.declared.ReaderFault.TheVariants.{Entry};
ghost use Rattle.faults.specs.Numbers.{order_number, entry_number, reader_number};

use std::alloc::{AllocError, AllocFailed};

// Refusals of an order, for an event or a timestamp, each with its number.
#[derive(Clone, Copy, Debug, PartialEq, Eq)]
pub enum OrderFault {
    // The process, or the parent that a birth names, does not live.
    NotLive = 1,
    // A process that is born lives already, or its number is 0.
    LiveAlready = 2,
    // The process is not a make.
    NotMake = 3,
    // The process is a make already.
    MakeAlready = 4,
    // The target is not declared.
    Undeclared = 5,
    // The make would be the seventeenth, one inside the other.
    TooDeep = 6,
    // A table of the order is full.
    TableFull = 7,
    // The last number is given out.
    UsedUp = 8,
    // This order does not take such an event.
    Unfit = 9,
    // The flag is not one from 1 to 32, was posted before, or is awaited and was not posted.
    BadFlag = 10,
    // There is no room for another await.
    AwaitsFull = 11,
}

// Refusals of a detector, for a ticket, an entry or a question.
#[derive(Clone, Copy, Debug, PartialEq, Eq)]
pub enum EntryFault {
    // The order refused.
    Order(OrderFault),
    // The ticket's timestamp is not known to the order.
    Unknown,
    // The ticket's number is not above that of the last accepted entry.
    OutOfTurn,
    // The path is malformed.
    BadPath,
    // A table or a buffer is too small.
    NoRoom,
    // No such generation or path is held.
    NotHeld,
    // There was no memory. This is no refusal of the rules and has no number.
    NoMemory,
}

// Refusals of the log reader, and of the tools that run a log.
#[derive(Clone, Copy, Debug, PartialEq, Eq)]
pub enum ReaderFault {
    // The detector or its order refused.
    Entry(EntryFault),
    // The log is empty or its version is not 1.
    BadVersion,
    // The log ends inside a record.
    Cut,
    // No record has this letter.
    UnknownLetter,
    // The length is 0 or does not fit the letter, or a field is out of its range.
    BadLength,
    // The log is longer than the tool takes.
    TooLong,
}

impl From<OrderFault> for EntryFault {
    ghost from_gives = { λ f r. r ≡ Order f };

    fn from(f: OrderFault) -> EntryFault {
        EntryFault::Order(f)
    }
}

impl From<EntryFault> for ReaderFault {
    ghost from_gives = { λ f r. r ≡ Entry f };

    fn from(f: EntryFault) -> ReaderFault {
        ReaderFault::Entry(f)
    }
}

// The library has two types for want of memory, and a `?` goes one step: so there are three of these, of a line each.
impl From<AllocError> for EntryFault {
    ghost from_gives = { λ _ r. r ≡ NoMemory };

    fn from(_f: AllocError) -> EntryFault {
        EntryFault::NoMemory
    }
}

impl<T: Drop> From<AllocFailed<T>> for EntryFault {
    ghost from_gives = { λ _ r. r ≡ NoMemory };

    fn from(_f: AllocFailed<T>) -> EntryFault {
        EntryFault::NoMemory
    }
}

impl From<AllocError> for ReaderFault {
    ghost from_gives = { λ _ r. r ≡ Entry NoMemory };

    fn from(_f: AllocError) -> ReaderFault {
        ReaderFault::Entry(EntryFault::NoMemory)
    }
}

impl OrderFault {
    // The refusal's number, 1 to 11.
    pub fn number(self) -> u8
        ensures { result ≡ order_number self }
    {
        self as u8
    }
}

impl EntryFault {
    // The refusal's own number, through the layers; none where memory ran out.
    // A match, since `as` takes only an enum whose variants hold nothing.
    pub fn number(self) -> Option<u8>
        ensures { result ≡ entry_number self }
    {
        match self {
            EntryFault::Order(f) => Some(f.number()),
            EntryFault::Unknown => Some(12),
            EntryFault::OutOfTurn => Some(13),
            EntryFault::BadPath => Some(14),
            EntryFault::NoRoom => Some(15),
            EntryFault::NotHeld => Some(16),
            EntryFault::NoMemory => None,
        }
    }
}

impl ReaderFault {
    // The refusal's own number, through the layers; none where memory ran out.
    // A match, as for `EntryFault`.
    pub fn number(self) -> Option<u8>
        ensures { result ≡ reader_number self }
    {
        match self {
            ReaderFault::Entry(f) => f.number(),
            ReaderFault::BadVersion => Some(17),
            ReaderFault::Cut => Some(18),
            ReaderFault::UnknownLetter => Some(19),
            ReaderFault::BadLength => Some(20),
            ReaderFault::TooLong => Some(21),
        }
    }
}
