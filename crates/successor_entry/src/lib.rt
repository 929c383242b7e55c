// The public entry that gives the code after a code: successor.
#![tactic(auto)]

ghost use Rattle.std.specs.Prelude.{◌≡◌, take};
ghost use Rattle.lists.specs.Select.{next};
ghost use Rattle.patterns.specs.System.{System, weight, codes, compare_system};
ghost use Rattle.patterns.specs.Entry.{Replied, listed, successor_of};
ghost use Rattle.patterns.specs.Replies.{successor_answer};
ghost use Rattle.memory.specs.Memory.{Holds};
ghost use Rattle.stepping.specs.HeldSteps.{HeldNext};

use acceptance::accept_into;
use patterns::{Found, points_room};
use stepping::follow;
use writing::StoredSystem;

// Puts the code that follows the system into `out`; the first `m` places of `sizes` hold the sizes of its components.
fn put_next(sizes: &mut [u8], m: usize, trees: &mut [u8], out: &mut [u8]) -> Found
    requires { HeldNext sizes.old m trees.old }
    ensures { (S : System) → Holds S (take m sizes.old) trees.old
        → Replied (listed (next compare_system S (codes (weight S)))) out.old (successor_answer result) out.new }
{
    let Some(k) = follow(sizes, m, trees) else {
        return Ok(None);
    };
    let sizes = &sizes[..k];
    let length = StoredSystem { sizes, trees }.put(out)?;
    Ok(Some(length))
}

// Writes the code that follows `code` in the list of all codes of as many points, or says "last".
pub fn successor(code: &[u8], out: &mut [u8]) -> Found
    ensures { Replied (successor_of code.now) out.old (successor_answer result) out.new }
{
    let mut sizes = points_room();
    let mut trees = points_room();
    let read = accept_into(code, &mut sizes, &mut trees)?;
    put_next(&mut sizes, read.components, &mut trees[..read.points], out)
}
