// The public entry that writes a code with the greatest period of its number of points [document 02, paper 9: the system that runs longest].
#![tactic(auto)]

mod masks;

ghost use Rattle.std.specs.Prelude.{◌≡◌, map, ◌≤◌, length};
ghost use Rattle.patterns.specs.Generation.{cycle};
ghost use Rattle.patterns.specs.Written.{written};
ghost use Rattle.patterns.specs.Replies.{greatest_answer, GreatestAnswer.greatest_is};
ghost use Rattle.patterns.specs.GreatestPeriod.{GreatestReplied};
ghost use Rattle.written.specs.Putting.{Placed};
ghost use Rattle.greatest_period_entry.specs.LandauLengths.{landau_lengths};
ghost use Rattle.greatest_period_entry.specs.Lengths.{LengthsFrom, CyclesAsked};

use multiples::lcm_of_all;
use patterns::{GreatestPeriod, Refusal, points_room};
use writing::StoredSystem;

// Puts the cycle lengths for `n` points into the last places of `sizes`, rising, and answers the place of the first. The points that are left are fixed points.
fn put_lengths(n: usize, sizes: &mut [u8]) -> usize
    requires { (n ≤ 120) × (length sizes.old ≡ 200) }
    ensures { LengthsFrom result sizes.new (landau_lengths n) }
{
    sizes.fill(1);
    let mut mask = masks::mask_of(n);
    let mut at = sizes.len();
    let mut left = n;
    for k in (2..30u8).rev() {
        if mask % 2 == 1 {
            at -= 1;
            sizes[at] = k;
            left -= usize::from(k);
        }
        mask /= 2;
    }
    at - left
}

// Writes the cycles of these lengths, and answers how many bytes they take.
fn write_cycles(lengths: &[u8], trees: &mut [u8], out: &mut [u8]) -> usize
    requires { CyclesAsked lengths.now trees.old out.old }
    ensures { Placed (written (map cycle lengths.now)) 0 out.old result out.new }
{
    trees.fill(1);
    StoredSystem {
        sizes: lengths,
        trees,
    }
    .write(out, 0)
}

// Writes the code that was chosen for `n` points, and tells its period.
fn put_chosen(n: usize, out: &mut [u8]) -> GreatestPeriod
    requires { (n ≤ 120) × (1000 ≤ length out.old) }
    ensures { GreatestReplied n out.old (greatest_is result.length result.period) out.new }
{
    let mut sizes = points_room();
    let mut trees = points_room();
    let from = put_lengths(n, &mut sizes);
    let lengths = &sizes[from..];
    let length = write_cycles(lengths, &mut trees[..n], out);
    let period = lcm_of_all(lengths);
    GreatestPeriod { length, period }
}

// Writes a code of `n` points with the greatest period, and tells that period.
pub fn greatest_period(n: usize, out: &mut [u8]) -> Result<GreatestPeriod, Refusal>
    ensures { GreatestReplied n out.old (greatest_answer result) out.new }
{
    if 200 < n {
        return Err(Refusal::Count);
    }
    if 120 < n {
        return Err(Refusal::TooManyPoints);
    }
    if out.len() < 1000 {
        return Err(Refusal::Room);
    }
    Ok(put_chosen(n, out))
}
