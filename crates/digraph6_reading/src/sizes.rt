// The size in front of a line: its form, the count of points, and that no shorter form would do.
ghost use Rattle.std.specs.Prelude.{◌≡◌, true, ◌≤◌, ◌<◌, length, get_or};
ghost use Rattle.lists.specs.Select.{each};
ghost use Rattle.patterns.specs.Digraph6.{in_format, size_value, sized as sized_of, read_size, read_count};
ghost use Rattle.digraph6_reading.specs.LineResults.{size_result};

use digraph6_writing::size_length;
use patterns::Refusal;

// The number of points, and how many bytes the size took.
#[derive(Clone, Copy, Debug, PartialEq, Eq, Hash)]
pub struct Size {
    pub points: usize,
    pub used: usize,
}

// The byte at a place, or 0 where there is none.
pub fn byte_at(s: &[u8], j: usize) -> u8
    ensures { result ≡ get_or s.now j 0 }
{
    s.get(j).copied().unwrap_or(0)
}

// Whether all bytes are bytes of the format.
pub fn in_format(s: &[u8]) -> bool
    ensures { result ≡ each in_format s.now }
{
    s.iter().all(|x| (63..=126).contains(x))
}

// The number that these bytes are the digits of, six bits each.
fn value(digits: &[u8]) -> usize
    requires { (each in_format digits.now ≡ true) × (length digits.now ≤ 6) }
    ensures { result ≡ size_value 0 digits.now }
{
    let mut a = 0;
    for x in digits {
        a = a * 64 + usize::from(*x - 63);
    }
    a
}

// A number in the `k` bytes after the first `j`.
fn sized(s: &[u8], j: usize, k: usize) -> Result<Size, Refusal>
    requires { (j ≤ 2) × (0 < k) × (k ≤ 6) }
    ensures { size_result result ≡ sized_of j k s.now }
{
    let end = j + k;
    if s.len() < end {
        return Err(Refusal::LineForm);
    }
    if !in_format(&s[j..end]) {
        return Err(Refusal::LineForm);
    }
    let points = value(&s[j..end]);
    Ok(Size { points, used: end })
}

// The size in one of its three forms.
fn read_size(s: &[u8]) -> Result<Size, Refusal>
    ensures { size_result result ≡ read_size s.now }
{
    if byte_at(s, 0) != b'~' {
        return sized(s, 0, 1);
    }
    if byte_at(s, 1) != b'~' {
        return sized(s, 1, 3);
    }
    sized(s, 2, 6)
}

// The size of at most 200 points in its shortest form.
pub fn read_count(s: &[u8]) -> Result<Size, Refusal>
    ensures { size_result result ≡ read_count s.now }
{
    let size = read_size(s)?;
    if 200 < size.points {
        return Err(Refusal::Count);
    }
    if size.used != size_length(size.points) {
        return Err(Refusal::LineForm);
    }
    Ok(size)
}
