// The listing program [document 01, "Sheet of examples"]: it reads a count of points and writes every code of so many points, in the order of the list.
#![tactic(auto)]

ghost use Rattle.std.specs.Prelude.{◌≡◌, [], ◌≤◌, length};
ghost use Rattle.patterns.specs.ListingText.{output_of};
ghost use Rattle.lister.specs.Remaining.{remaining};
ghost use Rattle.lister.specs.Good.{Good};
ghost use Rattle.listing.specs.Pieces.{FirstPiece};

use count_line::parse;
use lister::{Phase, State};
use pieces::{ROOM, piece};
use std::io;
use std::io::Write;

// The state before anything is written.
fn start(input: &[u8]) -> State
    ensures { Good result × (remaining result ≡ output_of input.now) }
{
    match parse(input) {
        Some(n) => State::at(Phase::Header(n)),
        None => State::at(Phase::Bad),
    }
}

// Puts the first piece of what the program writes for this input into `out` and answers its length; nothing where `out` has less room than a line may need.
pub fn text_into(input: &[u8], out: &mut [u8]) -> usize
    ensures { FirstPiece (output_of input.now) out.old result out.new }
{
    if out.len() < ROOM {
        return 0;
    }
    piece(start(input), out).len
}

// The last state of a run, and whether all of its text was written.
#[derive(Drop)]
struct Written {
    last: State,
    outcome: io::Result<()>,
}

// Writes the text that is to come, piece after piece, and answers the last state: it ends only where nothing is left. After a write that fails nothing more is
// written. The error stands beside the state, not in its place, so that the end is promised after it too.
fn write_pieces(first: State, out: &mut [u8], to: &mut impl Write) -> Written
    requires { Good first × (4096 ≤ length out.old) }
    ensures { remaining result.last ≡ [] }
{
    let mut state = first;
    let mut outcome = Ok(());
    // One piece after another until one is empty: no index is counted.
    loop {
        let step = piece(state, out);
        state = step.next;
        if step.len == 0 {
            return Written {
                last: state,
                outcome,
            };
        }
        if outcome.is_ok() {
            outcome = to.write_all(&out[..step.len]);
        }
    }
}

// The whole program. Four bytes of the input tell what it says.
pub fn run(rt: &(impl Input + Print)) -> io::Result<()> {
    let mut input = [0u8; 4];
    let len = input::read_full(&mut rt.reader(), &mut input);
    let mut out = [0u8; 16384];
    write_pieces(start(&input[..len]), &mut out, &mut io::writer(rt)).outcome
}
