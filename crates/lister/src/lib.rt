// The listing program one line at a time: the state stands for the text that is still to come.
#![tactic(auto)]

ghost use Rattle.std.specs.Prelude.{◌≡◌, ◌+◌, ◌≤◌, length, drop};
ghost use Rattle.patterns.specs.System.{codes};
ghost use Rattle.patterns.specs.ListingText.{lines_after};
ghost use Rattle.lister.specs.Remaining.{codes_from, remaining};
ghost use Rattle.lister.specs.Good.{Coming, Good};
ghost use Rattle.lister.specs.Put.{Put};

// What comes next: the line `bad count`; the header of so many points; after so many lines the line of a code; the total of so many codes; nothing.
#[derive(Clone, Copy, Debug, PartialEq, Eq, Hash)]
pub enum Phase {
    Bad,
    Header(usize),
    Line(usize),
    Total(usize),
    Done,
}

// Where a line comes next, its code is the first `len` bytes of `code`: a thousand bytes hold every code, and no heap is used.
// `Good` stays a clause and no ghost field: `at` makes a state of any phase, and the theorem `program-output` speaks of states as plain records.
#[derive(Clone, Copy)]
pub struct State {
    pub phase: Phase,
    pub code: [u8; 1000],
    pub len: usize,
}

// What is put ends at `len`; the rest is for the next state. Neither is compared or printed: the places behind a code hold nothing that counts.
#[derive(Clone, Copy)]
pub struct Step {
    pub len: usize,
    pub next: State,
}

impl State {
    // The state of a phase that holds no code.
    pub fn at(phase: Phase) -> State
        ensures { result.phase ≡ phase }
    {
        State {
            phase,
            code: [0; 1000],
            len: 0,
        }
    }

    // After the header of n points.
    fn first(n: usize) -> State
        requires { n ≤ 14 }
        ensures { Good result × (remaining result ≡ lines_after 0 (codes n)) }
    {
        let mut code = [0; 1000];
        match engine::first(n, &mut code) {
            Ok(len) => State {
                phase: Phase::Line(0),
                code,
                len,
            },
            Err(_) => State::at(Phase::Done),
        }
    }

    // After the line of the code `shown`, which stands at position `count`.
    fn after(count: usize, shown: &[u8]) -> State
        requires { Coming count shown.now }
        ensures { Good result × (remaining result ≡ lines_after count (drop 1 (codes_from shown.now))) }
    {
        let mut code = [0; 1000];
        match engine::successor(shown, &mut code) {
            Ok(Some(len)) => State {
                phase: Phase::Line(count),
                code,
                len,
            },
            Ok(None) => State::at(Phase::Total(count)),
            Err(_) => State::at(Phase::Done),
        }
    }

    // Puts the line that comes next; nothing where nothing is left.
    pub fn put_next(self, out: &mut [u8], at: usize) -> Step
        requires { Good self × (at + 4096 ≤ length out.old) }
        ensures { Put (remaining self) at out.old result out.new }
    {
        match self.phase {
            Phase::Bad => {
                let len = text::put_bytes(b"bad count\n", out, at);
                let next = State::at(Phase::Done);
                Step { len, next }
            }
            Phase::Header(n) => {
                let len = lines::put_header(n, out, at);
                let next = State::first(n);
                Step { len, next }
            }
            Phase::Line(lines) => put_code(lines, &self.code[..self.len], out, at),
            Phase::Total(count) => {
                let len = lines::put_total(count, out, at);
                let next = State::at(Phase::Done);
                Step { len, next }
            }
            Phase::Done => Step {
                len: at,
                next: self,
            },
        }
    }
}

// Puts the line of `code` after so many lines.
fn put_code(lines: usize, code: &[u8], out: &mut [u8], at: usize) -> Step
    requires { Coming (lines + 1) code.now × (length code.now ≤ 1000) × (at + 4096 ≤ length out.old) }
    ensures { Put (lines_after lines (codes_from code.now)) at out.old result out.new }
{
    let count = lines + 1;
    let len = lines::put_line(count, code, out, at);
    let next = State::after(count, code);
    Step { len, next }
}
