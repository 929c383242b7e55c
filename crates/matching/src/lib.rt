// Two lists of labels beside each other, and the table that sends each label of the first to the one beside it.
#![tactic(auto)]

ghost use Rattle.std.specs.Prelude.{◌≡◌, length};
ghost use Rattle.patterns.specs.Replies.{isomorphism_answer};
ghost use Rattle.matching.specs.Sends.{Matched, Sends, SendsPut};

use patterns::{Found, points_room};
use written::put;

// `r` sends each of the labels `a` to the one beside it in `b`.
fn send(a: &[u8], b: &[u8], r: &mut [u8])
    requires { Matched a.now b.now × (length r.old ≡ length a.now) }
    ensures { Sends a.now b.now r.new }
{
    for (x, y) in a.iter().zip(b) {
        r[*x as usize] = *y;
    }
}

// Puts the table that sends each of the labels `a` to the one beside it in `b` into `out`.
pub fn put_sent(a: &[u8], b: &[u8], out: &mut [u8]) -> Found
    requires { Matched a.now b.now }
    ensures { SendsPut a.now b.now out.old (isomorphism_answer result) out.new }
{
    let n = a.len();
    let mut table = points_room();
    send(a, b, &mut table[..n]);
    put(&table[..n], out).map(Some)
}
