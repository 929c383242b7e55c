// The least common multiple of two numbers, and of all numbers of a slice.
#![tactic(auto)]

ghost use Rattle.std.specs.Prelude.{◌≡◌};
ghost use Rattle.period_theory.specs.Multiples.{lcm as lcm_of, lcm_from};
ghost use Rattle.multiples.specs.FittingMultiples.{LcmAsked, LcmsAsked};

// The least common multiple: the first of a, 2 · a, .. that b divides.
fn lcm(a: u64, b: u64) -> u64
    requires { LcmAsked a b }
    ensures { result ≡ lcm_of a b }
{
    let mut multiple = a;
    // A `while`, since it goes through multiples and counts no index: (1..) would need a bound, and a product in place of each sum.
    while multiple % b != 0 {
        multiple += a;
    }
    multiple
}

// The least common multiple of all numbers of `s`, and 1 where it has none.
pub fn lcm_of_all(s: &[u8]) -> u64
    requires { LcmsAsked s.now }
    ensures { result ≡ lcm_from 1 s.now }
{
    let mut multiple = 1u64;
    for x in s {
        multiple = lcm(multiple, u64::from(*x));
    }
    multiple
}
