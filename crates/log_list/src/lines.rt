// The text that a log is listed as.
ghost use Rattle.std.specs.Prelude.{◌≡◌, ◌+◌, ◌<◌, ◌≤◌, ◌++◌, Some, IfOk, length};
ghost use Rattle.std.specs.List.{flat_map};
ghost use Rattle.std.specs.Str.{IsAscii};
ghost use Rattle.std.specs.Fmt.{WritesOnOk};
ghost use Rattle.std.specs.Option.{option_map};
ghost use Rattle.trace_log.specs.Item.{item};
ghost use Rattle.trace_log.specs.Whole.{record_of, stop_of};
ghost use Rattle.log_list.specs.Lines.{hex as hex_of, letter as letter_of, numbers, shown_byte, shown_path, fields, tail, line, last_line, Lists, ListsWritten};

use arrayvec::ArrayVec;
use std::alloc::{AllocError, Global};
use std::fmt;
use trace_log::contents::{Contents, Placed, Refusal, read_all};
use trace_log::record::Record;

// How many bytes of a path are shown at once: a text of its own for each takes several times as long.
const PART: usize = 64;

// The room for what is shown of them.
const SHOWN: usize = 4 * PART;

// A digit in base sixteen.
fn hex(digit: u8) -> u8
    requires { digit < 16 }
    ensures { result ≡ hex_of digit }
{
    if digit < 10 {
        b'0' + digit
    } else {
        b'a' + (digit - 10)
    }
}

// A byte of a path as it is shown: itself where it prints as one, else \xHH.
fn push_byte(text: &mut ArrayVec<u8, SHOWN>, b: u8)
    requires { length text.old.items + 4 ≤ 256 }
    ensures { text.new.items ≡ text.old.items ++ shown_byte b }
{
    if b.is_ascii_graphic() && b != b'\\' {
        text.push(b);
    } else {
        text.push(b'\\');
        text.push(b'x');
        text.push(hex(b / 16));
        text.push(hex(b % 16));
    }
}

// A part of a path as it is shown.
fn shown(part: &[u8]) -> ArrayVec<u8, SHOWN>
    requires few { length part.now ≤ 64 }
    ensures bytes { result.items ≡ flat_map shown_byte part.now }
    ensures ascii { IsAscii result.items }
{
    let mut text = ArrayVec::new();
    for b in part {
        push_byte(&mut text, *b);
    }
    text
}

// Writes a part of a path. What `unwrap` asks is the proof that what is shown is a text.
#[tactic(auto, using(crate::proofs::Texts::ascii_text))]
fn write_part<W: fmt::Write>(f: &mut fmt::Formatter<W>, part: &[u8]) -> fmt::Result
    requires few { length part.now ≤ 64 }
    ensures { WritesOnOk W.write_str_gives f.old result (flat_map shown_byte part.now) f.new }
{
    let text = shown(part);
    f.write_str(str::from_utf8(text.as_slice()).unwrap())
}

// A path after a space.
#[derive(Drop)]
struct Path<'a>(&'a [u8]);

impl fmt::Display for Path<'_> {
    ghost output = { λ p. Some (shown_path p.0.now) };

    fn fmt<W: fmt::Write>(&self, f: &mut fmt::Formatter<W>) -> fmt::Result {
        f.write_str(" ")?;
        let (parts, rest) = self.0.as_chunks::<PART>();
        for part in parts {
            write_part(f, part)?;
        }
        write_part(f, rest)
    }
}

// Numbers in decimal, each after a space.
#[derive(Drop)]
struct Fields<'a>(&'a [u16]);

impl fmt::Display for Fields<'_> {
    ghost output = { λ n. Some (fields n.0.now) };

    fn fmt<W: fmt::Write>(&self, f: &mut fmt::Formatter<W>) -> fmt::Result {
        for n in self.0 {
            write!(f, " {n}")?;
        }
        Ok(())
    }
}

// The letter of a record.
fn letter(record: &Record<'_>) -> char
    ensures { result ≡ letter_of (item «record».now) }
{
    match record {
        Record::Birth { .. } => 'B',
        Record::Make { .. } => 'M',
        Record::Target { .. } => 'T',
        Record::Death { .. } => 'D',
        Record::Read { .. } => 'R',
        Record::Write { .. } => 'W',
        Record::Exists { .. } => 'K',
        Record::Removal { .. } => 'U',
        Record::Post { .. } => 'F',
        Record::Await { .. } => 'A',
    }
}

// A record's numbers, in the order of the format; of a target's prerequisites the count.
#[derive(Drop)]
struct Numbers<'a>(&'a Record<'a>);

impl fmt::Display for Numbers<'_> {
    ghost output = { λ r. Some (fields (numbers (item r.0.now))) };

    fn fmt<W: fmt::Write>(&self, f: &mut fmt::Formatter<W>) -> fmt::Result {
        match self.0 {
            Record::Birth {
                process,
                parent,
                target,
            } => write!(f, " {process} {parent} {target}"),
            Record::Make { process } | Record::Death { process } | Record::Exists { process, .. } =>
                write!(f, " {process}"),
            Record::Target {
                process,
                prerequisites,
            } => write!(f, " {process} {}", prerequisites.len()),
            Record::Read {
                process,
                device,
                inode,
                ..
            }
            | Record::Write {
                process,
                device,
                inode,
                ..
            } => write!(f, " {process} {device} {inode}"),
            Record::Removal {
                process,
                device,
                inode,
                last,
                ..
            } => write!(f, " {process} {device} {inode} {}", u8::from(*last)),
            Record::Post { process, flag } | Record::Await { process, flag } => {
                write!(f, " {process} {flag}")
            }
        }
    }
}

// What follows a record's numbers: a target's prerequisites, or the path.
#[derive(Drop)]
struct Tail<'a>(&'a Record<'a>);

impl fmt::Display for Tail<'_> {
    ghost output = { λ r. Some (tail (item r.0.now)) };

    fn fmt<W: fmt::Write>(&self, f: &mut fmt::Formatter<W>) -> fmt::Result {
        match self.0 {
            Record::Target { prerequisites, .. } => write!(f, "{}", Fields(prerequisites)),
            Record::Read { path, .. }
            | Record::Write { path, .. }
            | Record::Exists { path, .. }
            | Record::Removal { path, .. } => write!(f, "{}", Path(path)),
            Record::Birth { .. }
            | Record::Make { .. }
            | Record::Death { .. }
            | Record::Post { .. }
            | Record::Await { .. } => Ok(()),
        }
    }
}

// The line of a record.
#[derive(Drop)]
struct Line<'a>(&'a Placed<'a>);

impl fmt::Display for Line<'_> {
    ghost output = { λ p. Some (line (record_of p.0.now)) };

    fn fmt<W: fmt::Write>(&self, f: &mut fmt::Formatter<W>) -> fmt::Result {
        let Placed { place, record } = self.0;
        writeln!(
            f,
            "{place} {}{}{}",
            letter(record),
            Numbers(record),
            Tail(record)
        )
    }
}

// The last line: E and the number of records, or X, the refusal's number and its place.
#[derive(Drop)]
struct Ending {
    count: usize,
    refusal: Option<Refusal>,
}

impl fmt::Display for Ending {
    ghost output = { λ e. Some (last_line e.count (option_map stop_of e.refusal)) };

    fn fmt<W: fmt::Write>(&self, f: &mut fmt::Formatter<W>) -> fmt::Result {
        let Some(Refusal { place, fault }) = &self.refusal else {
            return writeln!(f, "E {}", self.count);
        };
        match fault.number() {
            Some(number) => writeln!(f, "X {number} {place}"),
            None => Ok(()),
        }
    }
}

// The text of a log: a line for each record, and a last line.
pub fn list(heap: Global, log: &[u8]) -> Result<Vec<u8>, AllocError>
    ensures lists { IfOk result (λ text. Lists log.now text.items) }
    ensures written { IfOk result (λ text. ListsWritten log.now text.items) }
{
    let Contents { records, refusal } = read_all(heap, log)?;
    let mut out = String::new(heap);
    for placed in &records {
        write!(out, "{}", Line(placed))?;
    }
    let count = records.len();
    write!(out, "{}", Ending { count, refusal })?;
    Ok(out.into_bytes())
}
