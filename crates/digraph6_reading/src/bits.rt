// The bits of a matrix, six to a byte, the first the highest, and the first of them that is 1 from a place on.
ghost use Rattle.std.specs.Prelude.{◌≡◌, true, ◌≤◌, ◌<◌, get_or};
ghost use Rattle.lists.specs.Select.{gather};
ghost use Rattle.patterns.specs.Digraph6.{in_format, bits_of};
ghost use Rattle.digraph6_reading.specs.LineResults.{BitsAsked, FirstOne};

use digraph6_writing::weight;

// The bit at place `j` of a byte.
fn bit(x: u8, j: usize) -> u8
    requires { (in_format x ≡ true) × (j < 6) }
    ensures { result ≡ get_or (bits_of x) j 0 }
{
    (x - 63) / weight(j) % 2
}

// The first place from `j` on of a byte whose bit is 1, or 6. Most bytes have no such bit.
fn first_in(x: u8, j: usize) -> usize
    requires { (in_format x ≡ true) × (j ≤ 6) }
    ensures { FirstOne (bits_of x) j result }
{
    if x == 63 {
        return 6;
    }
    for i in j..6 {
        if bit(x, i) == 1 {
            return i;
        }
    }
    6
}

// The first place from `p` on whose bit is 1, or the number of all bits.
pub fn next_one(body: &[u8], p: usize) -> usize
    requires { BitsAsked body.now p }
    ensures { FirstOne (gather bits_of body.now) p result }
{
    let mut j = p % 6;
    for k in p / 6..body.len() {
        let i = first_in(body[k], j);
        if i < 6 {
            return 6 * k + i;
        }
        j = 0;
    }
    6 * body.len()
}
