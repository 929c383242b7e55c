// The lines of the listing program, put at a place of a lent buffer.
#![tactic(auto)]

ghost use Rattle.std.specs.Prelude.{◌≡◌, ◌+◌, ◌*◌, ◌≤◌, ◌<◌, length};
ghost use Rattle.lists.specs.Select.{gather};
ghost use Rattle.patterns.specs.ListingText.{header, spaced, code_line, total_line};
ghost use Rattle.text.specs.Added.{Added};

use text::{put_byte, put_bytes, put_decimal};

// The header: `n` and the count of points.
pub fn put_header(n: usize, out: &mut [u8], at: usize) -> usize
    requires { at + 23 ≤ length out.old }
    ensures { Added (header n) at out.old result out.new }
{
    let name = put_bytes(b"n ", out, at);
    let end = put_decimal(n, out, name);
    put_byte(b'\n', out, end)
}

// A space and a number of at most three digits.
fn put_spaced(x: u8, out: &mut [u8], at: usize) -> usize
    requires { at + 21 ≤ length out.old }
    ensures { Added (spaced x) at out.old result out.new × (result ≤ at + 4) }
{
    let place = put_byte(b' ', out, at);
    put_decimal(usize::from(x), out, place)
}

// A space and a number for each byte of `code`: up to 127 points every number of a code is one byte.
fn put_numbers(code: &[u8], out: &mut [u8], at: usize) -> usize
    requires { at + 4 * length code.now + 21 ≤ length out.old }
    ensures { Added (gather spaced code.now) at out.old result out.new × (result ≤ at + 4 * length code.now) }
{
    let mut end = at;
    for x in code {
        end = put_spaced(*x, out, end);
    }
    end
}

// The line of a code: its position, a colon, and its numbers.
pub fn put_line(position: usize, code: &[u8], out: &mut [u8], at: usize) -> usize
    requires { at + 4 * length code.now + 50 ≤ length out.old }
    ensures { Added (code_line position code.now) at out.old result out.new }
{
    let place = put_decimal(position, out, at);
    let colon = put_byte(b':', out, place);
    let end = put_numbers(code, out, colon);
    put_byte(b'\n', out, end)
}

// The last line: how many codes there are.
pub fn put_total(count: usize, out: &mut [u8], at: usize) -> usize
    requires { at + 27 ≤ length out.old }
    ensures { Added (total_line count) at out.old result out.new }
{
    let end = put_decimal(count, out, at);
    put_bytes(b" codes\n", out, end)
}
