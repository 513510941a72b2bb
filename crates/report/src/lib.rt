// The lines that the tools print, one at a time, into a caller's buffer.
#![tactic(auto)]

ghost use Rattle.std.specs.Prelude.{◌≡◌, ◌<◌, ◌≤◌, true, ◌∷◌, length, is_ok};
ghost use Rattle.report.specs.Lines.{fields, text, Usual, Writes};

use arrayvec::ArrayString;
use faults::EntryFault;
use itoa::Buffer;

// The shortest buffer that a line is written into.
pub const SHORTEST_BUFFER: usize = 32;

// The room of a letter, three numbers of 20 digits, each after a space, and the end of the line.
const LONGEST_LINE: usize = 65;

// One printed line.
#[derive(Clone, Copy)]
pub enum Line {
    // C: two accesses to the same contents that are in no order.
    Contents {
        earlier: u32,
        later: u32,
    },
    // P: the same on a path.
    Path {
        earlier: u32,
        later: u32,
    },
    // D: a directory that was looked up while its creation was in no order before the lookup.
    Directory {
        earlier: u32,
        later: u32,
    },
    // E: the end of a run, with its totals.
    End {
        entries: u32,
        checks: u32,
        races: u32,
    },
    // X: a refusal by its number, and the place of the record.
    Refused {
        number: u8,
        place: u64,
    },
}

impl Line {
    // The line as it is printed.
    fn text(self) -> ArrayString<LONGEST_LINE>
        ensures { result.bytes ≡ text self }
    {
        match self {
            Line::Contents { earlier, later } => join('C', &[earlier.into(), later.into()]),
            Line::Path { earlier, later } => join('P', &[earlier.into(), later.into()]),
            Line::Directory { earlier, later } => join('D', &[earlier.into(), later.into()]),
            Line::End {
                entries,
                checks,
                races,
            } => join('E', &[entries.into(), checks.into(), races.into()]),
            Line::Refused { number, place } => join('X', &[number.into(), place]),
        }
    }
}

// A letter, up to three numbers in decimal, each after a space, and the end of the line.
// Not `write!`: no clause says when it succeeds, so `enough` of `write_line` stayed open. A push needs only proved room.
#[tactic(auto, using(crate::proofs::Fields::all_fields))]
fn join(letter: char, numbers: &[u64]) -> ArrayString<LONGEST_LINE>
    requires ascii { letter < 128 }
    requires few { length numbers.now ≤ 3 }
    ensures { result.bytes ≡ letter ∷ fields numbers.now }
{
    let mut line = ArrayString::new();
    let mut digits = Buffer::new();
    line.push(letter);
    for &n in numbers {
        line.push(' ');
        line.push_str(digits.format(n));
    }
    line.push('\n');
    line
}

// Writes a line at the start of a buffer and answers its length; the bytes behind it stay. 15 where the buffer is shorter than 32
// bytes or than the line.
#[tactic(auto, using(crate::proofs::Fields::length_usual))]
pub fn write_line(line: Line, buffer: &mut [u8]) -> Result<usize, EntryFault>
    ensures answer { Writes (text line) buffer.old buffer.new result }
    ensures enough { Usual line → 32 ≤ length buffer.old → is_ok result ≡ true }
{
    let text = line.text();
    let size = text.len();
    if buffer.len() < size.max(SHORTEST_BUFFER) {
        return Err(EntryFault::NoRoom);
    }
    buffer[..size].copy_from_slice(text.as_bytes());
    Ok(size)
}

#[cfg(test)]
mod tests {
    use super::*;

    // Writes a line over dots and says whether the buffer then begins with this text and dots follow.
    fn writes(line: Line, text: &[u8]) -> bool {
        let mut buffer = [b'.'; 40];
        let Ok(n) = write_line(line, &mut buffer) else {
            return false;
        };
        n == text.len() && buffer.starts_with(text) && buffer[39] == b'.'
    }

    #[test]
    fn lines(rt: HostRuntime) {
        let table: [(Line, &[u8]); 6] = [
            (
                Line::Contents {
                    earlier: 7,
                    later: 10,
                },
                b"C 7 10\n",
            ),
            (
                Line::Path {
                    earlier: 999_999,
                    later: 1_000_000,
                },
                b"P 999999 1000000\n",
            ),
            (
                Line::Directory {
                    earlier: 1,
                    later: 2,
                },
                b"D 1 2\n",
            ),
            (
                Line::End {
                    entries: 5,
                    checks: 3,
                    races: 1,
                },
                b"E 5 3 1\n",
            ),
            (
                Line::End {
                    entries: 0,
                    checks: 0,
                    races: 0,
                },
                b"E 0 0 0\n",
            ),
            (
                Line::Refused {
                    number: 21,
                    place: 0,
                },
                b"X 21 0\n",
            ),
        ];
        for (line, text) in table {
            assert!(rt; writes(line, text));
        }
    }

    #[test]
    fn short_buffers(rt: HostRuntime) {
        let line = Line::Directory {
            earlier: 1,
            later: 2,
        };
        let mut short = [b'.'; 31];
        assert!(rt; write_line(line, &mut short).is_err());
        assert!(rt; short[0] == b'.');
        let mut enough = [b'.'; 32];
        assert!(rt; write_line(line, &mut enough).is_ok());
    }

    #[test]
    fn long_line(rt: HostRuntime) {
        let line = Line::End {
            entries: u32::MAX,
            checks: u32::MAX,
            races: u32::MAX,
        };
        let mut short = [b'.'; 34];
        assert!(rt; write_line(line, &mut short).is_err());
        assert!(rt; short[0] == b'.');
        assert!(rt; writes(line, b"E 4294967295 4294967295 4294967295\n"));
    }
}
