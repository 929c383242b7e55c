// The size list before.
ghost use Rattle.std.specs.Prelude.{◌≡◌, ◌+◌, ◌≤◌, ◌<◌, length, take};
ghost use Rattle.lists.specs.Select.{left_of};
ghost use Rattle.system_theory.specs.StepBack.{previous_sizes};
ghost use Rattle.size_lists.specs.SizesHeld.{SizesIn, NextIn};
ghost use Rattle.lower_sizes.specs.LastSize.{LastWhole};

// The number to the left of place i, and 1 to the left of the first.
fn left_of(sizes: &[u8], i: usize) -> usize
    requires { i ≤ length sizes.now }
    ensures { (result ≡ left_of 0 1 sizes.now i) × (result < 256) }
{
    if i == 0 { 1 } else { sizes[i - 1] as usize }
}

// To the left of place `from`, where the last number stands: the rightmost number that is greater than the one to its left falls by one, and a single number,
// the sum and one more, takes the place of all to its right. The number of sizes then, where a number can fall.
fn lower(sizes: &mut [u8], from: usize, last: usize) -> Option<usize>
    requires { LastWhole sizes.old from last }
    ensures { NextIn (previous_sizes 1 (take (from + 1) sizes.old)) result sizes.new }
{
    let mut rest = last;
    for i in (0..from).rev() {
        let size = sizes[i] as usize;
        if left_of(sizes, i) < size {
            sizes[i] = (size - 1) as u8;
            sizes[i + 1] = (rest + 1) as u8;
            return Some(i + 2);
        }
        rest += size;
    }
    None
}

// The size list before, in place of the one in the first m places: the last number is parted in two halves, the lesser one first, or where that is less than
// the number to its left another number falls. The number of sizes then, where there is a size list before.
pub fn previous_sizes(sizes: &mut [u8], m: usize) -> Option<usize>
    requires { SizesIn sizes.old m }
    ensures { NextIn (previous_sizes 1 (take m sizes.old)) result sizes.new }
{
    if m == 0 {
        return None;
    }
    let last = sizes[m - 1] as usize;
    let left = left_of(sizes, m - 1);
    if left + left <= last {
        let half = last / 2;
        sizes[m - 1] = half as u8;
        sizes[m] = (last - half) as u8;
        return Some(m + 1);
    }
    lower(sizes, m - 1, last)
}
