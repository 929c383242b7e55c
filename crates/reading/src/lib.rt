// Reading a written code into memory [document 01, "Refusing"]: the shape of the whole, left to right, the first fault deciding.
// Whether the system is canonical is not asked here.
#![tactic(auto)]

ghost use Rattle.std.specs.Prelude.{◌≡◌, List, ℕ, length, take};
ghost use Rattle.reading.specs.Shape.{shape, code_shape, kept_numbers, AcceptedInto};

use component_reading::read_components;
use cutting::cut_into;
use patterns::Refusal;

// How many numbers of a code are kept: `kept_numbers` of the definitions.
const KEPT: usize = 403;

// How many components were read, and how many points they have.
#[derive(Clone, Copy, Debug, PartialEq, Eq, Hash)]
pub struct Accepted {
    pub components: usize,
    pub points: usize,
}

// The whole: n and m, the components, and nothing after them. That there is no component and some points needs no test of its own:
// points are left over. `s` has the first KEPT of `count` numbers, or all where they are fewer; no more are looked at.
pub fn read_system(
    s: &[u16],
    count: usize,
    sizes: &mut [u8],
    trees: &mut [u8],
) -> Result<Accepted, Refusal>
    requires { (length sizes.old ≡ 200) × (length trees.old ≡ 200) }
    ensures { (xs : List ℕ) → s.now ≡ take kept_numbers xs → count ≡ length xs
        → AcceptedInto (shape xs) result sizes.new trees.new }
{
    if s.is_empty() {
        return Err(Refusal::Truncated);
    }
    let points = usize::from(s[0]);
    if 200 < points {
        return Err(Refusal::Count);
    }
    if s.len() == 1 {
        return Err(Refusal::Truncated);
    }
    let components = usize::from(s[1]);
    if points < components {
        return Err(Refusal::Sizes);
    }
    let next = read_components(s, 2, components, points, sizes, trees)?;
    if next < count {
        return Err(Refusal::Trailing);
    }
    Ok(Accepted { components, points })
}

// A written code, cut and read; the system goes into `sizes` and `trees`.
pub fn read_code(code: &[u8], sizes: &mut [u8], trees: &mut [u8]) -> Result<Accepted, Refusal>
    requires { (length sizes.old ≡ 200) × (length trees.old ≡ 200) }
    ensures { AcceptedInto (code_shape code.now) result sizes.new trees.new }
{
    let mut first = [0u16; KEPT];
    let count = cut_into(code, &mut first)?.numbers;
    read_system(&first[..count.min(KEPT)], count, sizes, trees)
}
