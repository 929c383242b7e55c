// Reads a digraph6 line [document 02, paper 10]: the checks of the paper in its order.
#![tactic(auto)]

mod bits;
mod sizes;

ghost use Rattle.std.specs.Prelude.{◌≡◌, ◌≤◌, length, drop};
ghost use Rattle.lists.specs.Select.{gather};
ghost use Rattle.patterns.specs.Reading.{and_then};
ghost use Rattle.patterns.specs.Digraph6.{bits_of, is_line_body, read_count, read_matrix, read_line_body, read_line};
ghost use Rattle.digraph6_reading.specs.LineResults.{MatrixAsked, matrix_result, LineRead};

use bits::next_one;
use digraph6_writing::body_length;
use patterns::{Refusal, Reply};
use sizes::{byte_at, in_format, read_count};

// Whether these are the bytes of a matrix of `n` points: their number, each of them, and the padding.
fn is_body(n: usize, body: &[u8]) -> bool
    requires { n ≤ 200 }
    ensures { result ≡ is_line_body n body.now }
{
    if body.len() != body_length(n) {
        return false;
    }
    if !in_format(body) {
        return false;
    }
    next_one(body, n * n) == 6 * body.len()
}

// Writes the one neighbour of each point into `table`, and answers whether each has exactly one. The bits that are 1 are looked for from one to the next: the first
// from a row on must be in it, and the one behind that must not.
fn read_matrix(body: &[u8], table: &mut [u8]) -> bool
    requires { MatrixAsked body.now table.old }
    ensures { matrix_result result table.new
        ≡ read_matrix (length table.old) (length table.old) (gather bits_of body.now) }
{
    let n = table.len();
    let mut one = next_one(body, 0);
    for (i, image) in table.iter_mut().enumerate() {
        let start = i * n;
        if start + n <= one {
            return false;
        }
        *image = (one - start) as u8;
        one = next_one(body, one + 1);
        if one < start + n {
            return false;
        }
    }
    true
}

// Reads the bytes behind the size of `n` points into `table`.
fn read_body(n: usize, body: &[u8], table: &mut [u8]) -> Reply
    requires { (n ≤ 200) × (length table.old ≡ 200) }
    ensures { LineRead (read_line_body n body.now) result table.new }
{
    if !is_body(n, body) {
        return Err(Refusal::LineForm);
    }
    if !read_matrix(body, &mut table[..n]) {
        return Err(Refusal::OutDegree);
    }
    Ok(n)
}

// The same of what follows the &.
fn read_sized(s: &[u8], table: &mut [u8]) -> Reply
    requires { length table.old ≡ 200 }
    ensures { LineRead (and_then (read_count s.now) (λ p. read_line_body p.0 (drop p.1 s.now))) result table.new }
{
    let size = read_count(s)?;
    read_body(size.points, &s[size.used..], table)
}

// Reads the map of a line into the first places of `table`, and answers how many points it has.
pub fn read_line(line: &[u8], table: &mut [u8]) -> Reply
    requires { length table.old ≡ 200 }
    ensures { LineRead (read_line line.now) result table.new }
{
    if byte_at(line, 0) != b'&' {
        return Err(Refusal::LineForm);
    }
    read_sized(&line[1..], table)
}
