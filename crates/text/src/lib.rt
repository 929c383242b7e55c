// Text put into a lent buffer from a place on. Each function answers the place after what it put.
// Buffer and place stay two parameters: `Put`, on which the theorem `program-output` stands, speaks of them apart.
#![tactic(auto)]

ghost use Rattle.std.specs.Prelude.{[], ◌∷◌, ◌+◌, ◌<◌, ◌≤◌, length};
ghost use Rattle.patterns.specs.Decimal.{decimal as decimal_of};
ghost use Rattle.text.specs.Added.{Added};

// One byte.
pub fn put_byte(b: u8, out: &mut [u8], at: usize) -> usize
    requires { at < length out.old }
    ensures { Added (b ∷ []) at out.old result out.new }
{
    out[at] = b;
    at + 1
}

// All of `s`.
pub fn put_bytes(s: &[u8], out: &mut [u8], at: usize) -> usize
    requires { at + length s.now ≤ length out.old }
    ensures { Added s.now at out.old result out.new }
{
    let end = at + s.len();
    out[at..end].copy_from_slice(s);
    end
}

// A number in decimal, of at most 20 digits.
pub fn put_decimal(x: usize, out: &mut [u8], at: usize) -> usize
    requires { at + 20 ≤ length out.old }
    ensures added { Added (decimal_of x) at out.old result out.new }
    ensures upper_bound { result ≤ at + 20 }
{
    let mut digits = [0u8; 20];
    let k = io::decimal(x as u64, &mut digits);
    put_bytes(&digits[..k], out, at)
}
