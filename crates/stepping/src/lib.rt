// The step from a system in memory to the next one in the list of all codes.
#![tactic(auto)]

ghost use Rattle.std.specs.Prelude.{take};
ghost use Rattle.patterns.specs.System.{System};
ghost use Rattle.system_theory.specs.Step.{step};
ghost use Rattle.memory.specs.Memory.{Holds};
ghost use Rattle.stepping.specs.HeldSteps.{HeldStep, HeldNext, SteppedTo};

use bumping::bump;
use patterns::points_room;
use size_lists::next_sizes;

// The system that follows in the list of all codes, where there is one. `trees` holds the system, and the first m places of `sizes` its sizes; the first
// places of `sizes` then hold as many as the answer says. The other three slices are for work alone.
fn next_system(
    sizes: &mut [u8],
    m: usize,
    trees: &mut [u8],
    up: &mut [u8],
    side: &mut [u8],
    out: &mut [u8],
) -> Option<usize>
    requires { HeldStep sizes.old m trees.old up.old side.old out.old }
    ensures { (S : System) → Holds S (take m sizes.old) trees.old
        → SteppedTo (step S) result sizes.new trees.new }
{
    if bump(&sizes[..m], trees, up, side, out) {
        return Some(m);
    }
    let k = next_sizes(sizes, m)?;
    trees.fill(1);
    Some(k)
}

// The same with work space of its own, where `sizes` has 200 places.
pub fn follow(sizes: &mut [u8], m: usize, trees: &mut [u8]) -> Option<usize>
    requires { HeldNext sizes.old m trees.old }
    ensures { (S : System) → Holds S (take m sizes.old) trees.old
        → SteppedTo (step S) result sizes.new trees.new }
{
    let mut up = points_room();
    let mut side = points_room();
    let mut work = points_room();
    next_system(sizes, m, trees, &mut up, &mut side, &mut work)
}
