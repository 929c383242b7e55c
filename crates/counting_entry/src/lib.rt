// The public entry that counts the tables with a code [document 02, paper 7].
#![tactic(auto)]

ghost use Rattle.std.specs.Prelude.{◌≡◌, ◌≤◌};
ghost use Rattle.patterns.specs.System.{System};
ghost use Rattle.patterns.specs.Replies.{quantity_answer, Answer.length_is};
ghost use Rattle.patterns.specs.Entry.{answer};
ghost use Rattle.patterns.specs.TableCount.{tables_counted, table_count};
ghost use Rattle.memory.specs.Memory.{Holds};
ghost use Rattle.memory.specs.HeldCode.{HeldCanonical};
ghost use Rattle.counting_theory.specs.Symmetries.{factorial as factorial_of};

use acceptance::accept_into;
use patterns::{Refusal, points_room};
use system_symmetries::symmetries;

// 1 · 2 · .. · n.
fn factorial(n: usize) -> u64
    requires { n ≤ 15 }
    ensures { result ≡ factorial_of n }
{
    let mut product = 1;
    for i in 1..=n {
        product *= i as u64;
    }
    product
}

// How many tables have the system: all orders of the points, of which as many as the system has symmetries give one table.
fn tables_with(sizes: &[u8], trees: &[u8]) -> Result<u64, Refusal>
    requires { HeldCanonical sizes.now trees.now }
    ensures { (S : System) → Holds S sizes.now trees.now → quantity_answer result ≡ answer (tables_counted S) length_is }
{
    if 15 < trees.len() {
        return Err(Refusal::Uncounted);
    }
    let orders = factorial(trees.len());
    Ok(orders / symmetries(sizes, trees))
}

// How many tables have `code`. The code's own faults come first.
pub fn table_count(code: &[u8]) -> Result<u64, Refusal>
    ensures { quantity_answer result ≡ answer (table_count code.now) length_is }
{
    let mut sizes = points_room();
    let mut trees = points_room();
    let accepted = accept_into(code, &mut sizes, &mut trees)?;
    tables_with(&sizes[..accepted.components], &trees[..accepted.points])
}
