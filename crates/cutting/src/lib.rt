// The bytes of a written code, cut into numbers [document 01, "The written code"] in one pass [document 02, paper 4].
#![tactic(auto)]

ghost use Rattle.std.specs.Prelude.{◌-◌, ◌≤◌, ◌<◌, ◌≡◌, set};
ghost use Rattle.patterns.specs.OnePass.{cut_step};
ghost use Rattle.cutting.specs.Cutting.{step_reply, CutInto};

use patterns::Refusal;

// What is known of a number after one of its bytes: its value where it has ended, else its first byte, as it stands, of which 128 is taken off at the end, where it
// costs nothing.
#[derive(Clone, Copy, Debug, PartialEq, Eq, Hash)]
enum Piece {
    Whole(usize),
    Begun(usize),
}

// A whole slice that was cut: how many numbers, and how many bytes.
#[derive(Clone, Copy, Debug, PartialEq, Eq, Hash)]
pub struct Cut {
    pub numbers: usize,
    pub bytes: usize,
}

// The next byte, of a new number where its place is 0, and else of the number that began with the byte `first`.
fn cut_step(byte: usize, place: usize, first: usize) -> Result<Piece, Refusal>
    requires { (first < 256) × (0 < place → 128 ≤ first) }
    ensures { result ≡ step_reply (cut_step byte place (first - 128)) }
{
    if place == 0 {
        if byte < 128 {
            return Ok(Piece::Whole(byte));
        }
        return Ok(Piece::Begun(byte));
    }
    if byte == 0 {
        return Err(Refusal::NumberForm);
    }
    if 128 <= byte {
        return Err(Refusal::NumberForm);
    }
    Ok(Piece::Whole(first - 128 + byte * 128))
}

// The number x, put at place n where `out` has one.
fn keep(x: usize, out: &mut [u16], n: usize)
    requires { x < 16384 }
    ensures { out.new ≡ set out.old n x }
{
    if n < out.len() {
        out[n] = x as u16;
    }
}

// All of `s`, each byte read once, from left to right; the first fault decides. `out` keeps as many of the numbers as it has places for, and all are counted.
// The place and the first byte are two numbers: of these the compiler makes two places in the loop, and of one `Option` a test for each byte, which took twice
// as long on numbers of two bytes.
pub fn cut_into(s: &[u8], out: &mut [u16]) -> Result<Cut, Refusal>
    ensures { CutInto s.now out.old result out.new }
{
    let mut numbers = 0;
    let mut place = 0;
    let mut first = 0;
    for byte in s {
        let known = cut_step(usize::from(*byte), place, first);
        // No `?`: document 01 names let .. else, the refusal handed straight on, as the form of this place.
        let Ok(piece) = known else {
            return Err(known.unwrap_err());
        };
        match piece {
            Piece::Whole(value) => {
                keep(value, out, numbers);
                numbers += 1;
                first = 0;
                place = 0;
            }
            Piece::Begun(value) => {
                first = value;
                place = 1;
            }
        }
    }
    if place != 0 {
        return Err(Refusal::Truncated);
    }
    let bytes = s.len();
    Ok(Cut { numbers, bytes })
}
