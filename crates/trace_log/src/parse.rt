// One record from its letter and the bytes that follow the letter.
ghost use Rattle.std.specs.Prelude.{◌≡◌, ◌≢◌, ◌%◌, ◌^◌, ◌<◌, ◌≤◌, ◌++◌, length, MatchResult};
ghost use Rattle.std.specs.List.{flat_map, AllByRecursion};
ghost use Rattle.faults.specs.declared.ReaderFault.TheVariants.{BadLength};
ghost use Rattle.trace_log.specs.Format.{big};
ghost use Rattle.trace_log.specs.Reading.{Parses};

use crate::number::{Number, field, last_field};
use crate::record::Record;
use faults::ReaderFault;
use std::alloc::{AllocError, Global};

fn birth(fields: &[u8]) -> Result<Record<'_>, ReaderFault>
    ensures { Parses 66 fields.now result }
{
    let (process, rest) = field(fields)?;
    let (parent, rest) = field(rest)?;
    let target = last_field(rest)?;
    Ok(Record::Birth {
        process,
        parent,
        target,
    })
}

// The numbers in pairs of bytes.
fn numbers(heap: Global, bytes: &[u8]) -> Result<Vec<u16>, AllocError>
    requires { length bytes.now % 2 ≡ 0 }
    ensures { MatchResult result (λ v. (bytes.now ≡ flat_map (big 2) v.items) × AllByRecursion (λ t. t < 2 ^ 16) v.items) (λ _. 2 ≤ length bytes.now) }
{
    let mut all = Vec::new(heap);
    let (pairs, _) = bytes.as_chunks::<2>();
    for pair in pairs {
        all.push(u16::from_bytes(pair))?;
    }
    Ok(all)
}

fn target(heap: Global, fields: &[u8]) -> Result<Record<'_>, ReaderFault>
    ensures { Parses 84 fields.now result }
{
    let (process, rest) = field(fields)?;
    let (count, rest) = field::<u8, 1>(rest)?;
    if rest.len() != 2 * usize::from(count) {
        return Err(ReaderFault::BadLength);
    }
    let prerequisites = numbers(heap, rest)?;
    Ok(Record::Target {
        process,
        prerequisites,
    })
}

// What the record of an access to an inode begins with, and the rest.
#[derive(Clone, Copy)]
struct Inode<'a> {
    process: u32,
    device: u32,
    inode: u64,
    rest: &'a [u8],
}

fn inode_fields(fields: &[u8]) -> Result<Inode<'_>, ReaderFault>
    ensures { MatchResult result (λ a. fields.now ≡ big 4 a.process ++ (big 4 a.device ++ (big 8 a.inode ++ a.rest.now))) (λ f. (f ≡ BadLength) × (length fields.now < 16)) }
{
    let (process, rest) = field(fields)?;
    let (device, rest) = field(rest)?;
    let (inode, rest) = field(rest)?;
    Ok(Inode {
        process,
        device,
        inode,
        rest,
    })
}

fn removal(fields: &[u8]) -> Result<Record<'_>, ReaderFault>
    ensures { Parses 85 fields.now result }
{
    let Inode {
        process,
        device,
        inode,
        rest,
    } = inode_fields(fields)?;
    let [last @ (0 | 1), path @ ..] = rest else {
        return Err(ReaderFault::BadLength);
    };
    Ok(Record::Removal {
        process,
        device,
        inode,
        last: *last == 1,
        path,
    })
}

// A process and a flag.
fn flagged(fields: &[u8]) -> Result<(u32, u8), ReaderFault>
    ensures { MatchResult result (λ a. fields.now ≡ big 4 a.0 ++ big 1 a.1) (λ f. (f ≡ BadLength) × (length fields.now ≢ 5)) }
{
    let (process, rest) = field(fields)?;
    let flag = last_field(rest)?;
    Ok((process, flag))
}

// The record of a letter; 19 for a letter that no record has, else 20 for a length that does not fit the letter.
pub fn parse(heap: Global, letter: u8, fields: &[u8]) -> Result<Record<'_>, ReaderFault>
    ensures { Parses letter fields.now result }
{
    match letter {
        b'B' => birth(fields),
        b'M' => last_field(fields).map(|process| Record::Make { process }),
        b'T' => target(heap, fields),
        b'D' => last_field(fields).map(|process| Record::Death { process }),
        b'R' => inode_fields(fields).map(|a| Record::Read {
            process: a.process,
            device: a.device,
            inode: a.inode,
            path: a.rest,
        }),
        b'W' => inode_fields(fields).map(|a| Record::Write {
            process: a.process,
            device: a.device,
            inode: a.inode,
            path: a.rest,
        }),
        b'K' => field(fields).map(|(process, path)| Record::Exists { process, path }),
        b'U' => removal(fields),
        b'F' => flagged(fields).map(|(process, flag)| Record::Post { process, flag }),
        b'A' => flagged(fields).map(|(process, flag)| Record::Await { process, flag }),
        _ => Err(ReaderFault::UnknownLetter),
    }
}
