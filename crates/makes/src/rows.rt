// The rows of prerequisites: for each target a row, with a bit for each target that it needs, directly or through others.
ghost use Rattle.std.specs.Prelude.{◌≡◌, ◌<◌, length};
ghost use Rattle.makes.specs.Places.{all_declared};
ghost use Rattle.makes.specs.Rows.{with_row, joined, needs as is_needed};

use std::array;

// The words of a row.
pub const WORDS: usize = 8;

// A row: a bit for each target.
pub type Row = [u64; WORDS];

// Whether target t needs target u.
pub fn needs(rows: &[Row], t: usize, u: usize) -> bool
    requires within { t < length rows.now }
    requires few { u < 512 }
    ensures answer { result ≡ is_needed rows.now t u }
{
    (rows[t][u / 64] >> (u % 64)) % 2 == 1
}

// Two rows joined: the bits of both.
fn join_rows(row: &Row, more: &Row) -> Row
    ensures { result ≡ with_row row.now more.now }
{
    array::from_fn(|i| row[i] | more[i])
}

// Puts target u and all that it needs into a row.
pub fn join(row: &mut Row, rows: &[Row], u: usize)
    requires within { u < length rows.now }
    requires few { u < 512 }
    ensures after { row.new ≡ joined rows.now row.old u }
{
    *row = join_rows(row, &rows[u]);
    row[u / 64] |= 1 << (u % 64);
}

// Whether each is the number of a declared target.
pub fn all_declared(numbers: &[u16], targets: usize) -> bool
    ensures answer { result ≡ all_declared targets numbers.now }
{
    numbers
        .iter()
        .all(|number| (1..=targets).contains(&usize::from(*number)))
}
