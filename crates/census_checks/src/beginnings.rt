// Lists of any length, of which only the beginning is kept.
ghost use Rattle.std.specs.Prelude.{◌≡◌, ◌+◌, ◌%◌, ◌≤◌, ◌<◌, IsSome, IfSome};

use case_text::faults::Fault;
use case_text::lists::FILLING;
use case_text::numbers::Numbers;

// How long a list is, its first bytes, in fixed memory, and whether all bytes after them are the filling, which is asked of expected lists alone. Where the list ends before,
// the filling stands.
#[derive(Clone, Copy, Debug, PartialEq, Eq)]
pub struct Beginning<const N: usize> {
    pub len: usize,
    pub bytes: [u8; N],
    pub is_filled_after: bool,
}

// The last of the places `i`, `i` + `period`, .. of a list of this length, where it has one of them.
fn last_place(i: usize, period: usize, len: usize) -> Option<usize>
    requires { i < period }
    ensures some { i < len → IsSome result }
    ensures last { IfSome result (λ place. (place < len) × (len ≤ place + period) × (place % period ≡ i)) }
{
    let last = len.checked_sub(1)?;
    let after = last.checked_sub(i)?;
    Some(last - after % period)
}

// Puts a byte into the places `i`, `i` + `period`, ..
fn put(places: &mut [u8], i: usize, period: usize, byte: u8)
    requires { i < period }
{
    for place in places.iter_mut().skip(i).step_by(period) {
        *place = byte;
    }
}

impl<const N: usize> Beginning<N> {
    // Reads a list: its length, the length of its pattern and the pattern, which is repeated until the length is reached. Without a pattern the list is empty, and of a
    // pattern that is longer it is the beginning.
    pub fn read(numbers: &mut Numbers<'_>) -> Result<Self, Fault> {
        let len = numbers.number()?;
        let period = numbers.number()?;
        let len = if period == 0 { 0 } else { len };
        let mut bytes = [FILLING; N];
        let mut is_filled_after = true;
        for i in 0..period {
            let byte = numbers.byte()?;
            put(&mut bytes[..len.min(N)], i, period, byte);
            let is_after = last_place(i, period, len).is_some_and(|place| N <= place);
            is_filled_after = is_filled_after && (byte == FILLING || !is_after);
        }
        Ok(Beginning {
            len,
            bytes,
            is_filled_after,
        })
    }

    // The bytes of the list that are kept.
    pub fn as_slice(&self) -> &[u8] {
        &self.bytes[..self.len.min(N)]
    }
}
