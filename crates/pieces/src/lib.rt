// The text of the listing in pieces: a lent buffer is filled with whole lines.
#![tactic(auto)]

ghost use Rattle.std.specs.Prelude.{◌≤◌, length};
ghost use Rattle.lister.specs.Remaining.{remaining};
ghost use Rattle.lister.specs.Good.{Good};
ghost use Rattle.pieces.specs.Filled.{Filled};

use lister::{State, Step};

// A line is put only where this much room is left: a code of 1,000 bytes takes at most 4,000 and its position.
pub const ROOM: usize = 4096;

// Fills `out` with as many of the lines to come as have room.
pub fn piece(state: State, out: &mut [u8]) -> Step
    requires { Good state × (4096 ≤ length out.old) }
    ensures { Filled (remaining state) out.old result out.new }
{
    let mut at = 0;
    let mut next = state;
    // The place moves by the length of a line: no index is counted.
    while ROOM <= out.len() - at {
        let step = next.put_next(out, at);
        if step.len == at {
            return step;
        }
        at = step.len;
        next = step.next;
    }
    Step { len: at, next }
}
