// The public entry that gives the code before a code [document 02, paper 3]: predecessor.
#![tactic(auto)]

ghost use Rattle.std.specs.Prelude.{◌≡◌, take};
ghost use Rattle.lists.specs.Select.{previous};
ghost use Rattle.patterns.specs.System.{System, weight, codes, compare_system};
ghost use Rattle.patterns.specs.Entry.{Replied};
ghost use Rattle.patterns.specs.Predecessor.{foregoing, predecessor_of};
ghost use Rattle.patterns.specs.Replies.{predecessor_answer};
ghost use Rattle.memory.specs.Memory.{Holds};
ghost use Rattle.stepping.specs.HeldSteps.{HeldNext};

use acceptance::accept_into;
use patterns::{Found, points_room};
use preceding::precede;
use writing::StoredSystem;

// Puts the code that stands before the system into `out`; the first `m` places of `sizes` hold the sizes of its components.
fn put_previous(sizes: &mut [u8], m: usize, trees: &mut [u8], out: &mut [u8]) -> Found
    requires { HeldNext sizes.old m trees.old }
    ensures { (S : System) → Holds S (take m sizes.old) trees.old
        → Replied (foregoing (previous compare_system S (codes (weight S)))) out.old (predecessor_answer result) out.new }
{
    let Some(k) = precede(sizes, m, trees) else {
        return Ok(None);
    };
    let sizes = &sizes[..k];
    let length = StoredSystem { sizes, trees }.put(out)?;
    Ok(Some(length))
}

// Writes the code that stands before `code` in the list of all codes of as many points, or says "first".
pub fn predecessor(code: &[u8], out: &mut [u8]) -> Found
    ensures { Replied (predecessor_of code.now) out.old (predecessor_answer result) out.new }
{
    let mut sizes = points_room();
    let mut trees = points_room();
    let read = accept_into(code, &mut sizes, &mut trees)?;
    put_previous(&mut sizes, read.components, &mut trees[..read.points], out)
}
