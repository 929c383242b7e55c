// Input read into a lent buffer.
#![tactic(auto)]

ghost use Rattle.std.specs.Prelude.{◌≤◌, length};

use std::io::Read;

// Reads until `out` is full, the input ends or a read fails, and answers how many bytes it put at the start of `out`.
pub fn read_full(from: &mut impl Read, out: &mut [u8]) -> usize
    ensures { result ≤ length out.new }
{
    let mut len = 0;
    // No index is counted: a read says how far it came.
    while len < out.len() {
        match from.read(&mut out[len..]) {
            Ok(0) | Err(_) => return len,
            Ok(n) => len += n,
        }
    }
    len
}
