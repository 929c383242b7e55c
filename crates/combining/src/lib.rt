// One table made of two [document 02, paper 5].
#![tactic(auto)]

ghost use Rattle.std.specs.Prelude.{◌≡◌, map, ◌+◌, ◌≤◌};
ghost use Rattle.written.specs.Putting.{placed};
ghost use Rattle.combining.specs.declared.Operation.TheVariants.{Sum, Product};
ghost use Rattle.combining.specs.Combining.{points_of, table_of, ShiftAsked, CombineAsked};

// Which table is made of two: that of both side by side, or that of pairs. An enum, since `points_of` and `table_of` tell them apart; a trait would need two types
// without a value, a ghost member for each of these and their law, in place of two matches.
#[derive(Clone, Copy, Debug, PartialEq, Eq, Hash)]
pub enum Operation {
    Sum,
    Product,
}

// Writes `shift` more than each number of `g` from `at` on.
fn shift_into(shift: usize, g: &[u8], out: &mut [u8], at: usize)
    requires { ShiftAsked shift g.now out.old at }
    ensures { out.new ≡ placed at (map (λ y. shift + y) g.now) out.old }
{
    for (j, y) in g.iter().enumerate() {
        out[at + j] = (shift + usize::from(*y)) as u8;
    }
}

// Writes both tables side by side: the points of the second come after those of the first.
fn sum_into(f: &[u8], g: &[u8], out: &mut [u8])
    requires { CombineAsked Sum f.now g.now out.old }
    ensures { out.new ≡ table_of Sum f.now g.now }
{
    let n = f.len();
    out[..n].copy_from_slice(f);
    shift_into(n, g, out, n);
}

// Writes the table of pairs: for each point of the first table as many places as the second has.
fn product_into(f: &[u8], g: &[u8], out: &mut [u8])
    requires { CombineAsked Product f.now g.now out.old }
    ensures { out.new ≡ table_of Product f.now g.now }
{
    let m = g.len();
    for (i, x) in f.iter().enumerate() {
        shift_into(usize::from(*x) * m, g, out, i * m);
    }
}

// How many points the table has that is made of tables of `n` and `m` points.
pub fn points(operation: Operation, n: usize, m: usize) -> usize
    requires { (n ≤ 200) × (m ≤ 200) }
    ensures { result ≡ points_of operation n m }
{
    match operation {
        Operation::Sum => n + m,
        Operation::Product => n * m,
    }
}

// Writes the table that is made of `f` and `g`.
pub fn combine(operation: Operation, f: &[u8], g: &[u8], out: &mut [u8])
    requires { CombineAsked operation f.now g.now out.old }
    ensures { out.new ≡ table_of operation f.now g.now }
{
    match operation {
        Operation::Sum => sum_into(f, g, out),
        Operation::Product => product_into(f, g, out),
    }
}
