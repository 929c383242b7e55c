// Bytes put into a lent buffer [document 01, "The written code"]: one number, and a result, or its refusal for want of room.
#![tactic(auto)]

ghost use Rattle.std.specs.Prelude.{◌<◌, ◌≤◌, ◌+◌, length};
ghost use Rattle.patterns.specs.Written.{write_number};
ghost use Rattle.patterns.specs.Entry.{Replied, Outcome.gives};
ghost use Rattle.patterns.specs.Replies.{answer_of};
ghost use Rattle.written.specs.Putting.{Placed};

use patterns::{Refusal, Reply};

// Writes the number `x` from `at` on, and answers the place after it.
pub fn put_number(x: usize, out: &mut [u8], at: usize) -> usize
    requires { (x < 16384) × (at + length (write_number x) ≤ length out.old) }
    ensures { Placed (write_number x) at out.old result out.new }
{
    if x < 128 {
        out[at] = x as u8;
        return at + 1;
    }
    out[at] = (x % 128 + 128) as u8;
    out[at + 1] = (x / 128) as u8;
    at + 2
}

// Puts the result `code` into the first places of `out`, where there is room for it.
pub fn put(code: &[u8], out: &mut [u8]) -> Reply
    ensures { Replied (gives code.now) out.old (answer_of result) out.new }
{
    if out.len() < code.len() {
        return Err(Refusal::Room);
    }
    out[..code.len()].copy_from_slice(code);
    Ok(code.len())
}
