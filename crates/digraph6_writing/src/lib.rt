// Writes the digraph6 line of a map [document 02, paper 10]: &, the number of points, and the adjacency matrix, six bits to a byte.
#![tactic(auto)]

ghost use Rattle.std.specs.Prelude.{◌≡◌, ◌∷◌, ◌≤◌, ◌<◌, length};
ghost use Rattle.patterns.specs.Digraph6.{size_field, body_length, packed, matrix, digraph6};
ghost use Rattle.patterns.specs.Entry.{Replied, Outcome.gives};
ghost use Rattle.patterns.specs.Replies.{answer_of};
ghost use Rattle.digraph6_writing.specs.BodyPlaces.{weight_of, HeadAsked, BodyAsked};

use patterns::{Refusal, Reply};
use tables::Table;

// How many bytes the size of `n` points takes.
pub fn size_length(n: usize) -> usize
    ensures { result ≡ length (size_field n) }
{
    if 63 <= n {
        return 4;
    }
    1
}

// How many bytes the matrix of `n` points takes.
pub fn body_length(n: usize) -> usize
    requires { n ≤ 200 }
    ensures { result ≡ body_length n }
{
    (n * n + 5) / 6
}

// Writes & and the size.
fn write_head(n: usize, out: &mut [u8])
    requires { HeadAsked n out.old }
    ensures { out.new ≡ 38 ∷ size_field n }
{
    out[0] = b'&';
    if n < 63 {
        out[1] = (63 + n) as u8;
        return;
    }
    out[1] = b'~';
    out[2] = (63 + n / 4096) as u8;
    out[3] = (63 + n / 64 % 64) as u8;
    out[4] = (63 + n % 64) as u8;
}

// What the bit at place `j` of a byte adds to it.
pub fn weight(j: usize) -> u8
    requires { j < 6 }
    ensures { result ≡ weight_of j }
{
    [32u8, 16, 8, 4, 2, 1][j]
}

// Writes the matrix: a graph without arcs first, and then the one arc of each point, so that most bytes are written once and looked at no more.
fn write_body(f: &[u8], body: &mut [u8])
    requires { BodyAsked f.now body.old }
    ensures { body.new ≡ packed (body_length (length f.now)) (matrix f.now) }
{
    body.fill(63);
    for (i, y) in f.iter().enumerate() {
        let place = i * f.len() + usize::from(*y);
        body[place / 6] += weight(place % 6);
    }
}

// Puts the line of the map `table` into `out`.
pub fn put_line(table: Table, out: &mut [u8]) -> Reply
    ensures { Replied (gives (digraph6 table.entry.images.now)) out.old (answer_of result) out.new }
{
    let n = table.images.len();
    let head = 1 + size_length(n);
    let length = head + body_length(n);
    if out.len() < length {
        return Err(Refusal::Room);
    }
    write_head(n, &mut out[..head]);
    write_body(table.images, &mut out[head..length]);
    Ok(length)
}
