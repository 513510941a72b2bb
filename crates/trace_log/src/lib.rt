// The log that a tracer writes: its records, and a reader that hands them out one at a time.
#![tactic(auto)]

pub mod contents;
mod front;
mod number;
mod parse;
pub mod reader;
pub mod record;
