// Accesses, and what a check finds.
use order::Timestamp;

// What was done.
#[derive(Clone, Copy, Debug, PartialEq, Eq)]
pub enum Kind {
    Read,
    // A write, or a directory made.
    Write,
    Removal,
    // A directory was to be made and existed already.
    FailedCreation,
}

// One use of a key: what was done, and when.
#[derive(Clone, Copy)]
pub struct Access {
    pub kind: Kind,
    pub at: Timestamp,
}

// Two that are not in order.
#[derive(Clone, Copy, Debug, PartialEq, Eq)]
pub struct Race {
    pub earlier: Timestamp,
    pub later: Timestamp,
}

// What entering one access found: how many checks were made, and the earlier access of the first that failed, if one did.
#[derive(Clone, Copy, Debug, PartialEq, Eq)]
pub struct Checked {
    pub checks: usize,
    pub failed: Option<Timestamp>,
}
