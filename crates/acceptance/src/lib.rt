// Accepting a written code: it is cut, read and tested.
#![tactic(auto)]

ghost use Rattle.std.specs.Prelude.{◌≡◌, length};
ghost use Rattle.patterns.specs.Reading.{accepted};
ghost use Rattle.reading.specs.Shape.{AcceptedInto};

use patterns::Refusal;
use reading::{Accepted, read_code};
use systems::canonical;

// The code is read, and then the system must be canonical [document 01, "Refusing", cause 6]; it goes into `sizes` and `trees`.
pub fn accept_into(code: &[u8], sizes: &mut [u8], trees: &mut [u8]) -> Result<Accepted, Refusal>
    requires { (length sizes.old ≡ 200) × (length trees.old ≡ 200) }
    ensures { AcceptedInto (accepted code.now) result sizes.new trees.new }
{
    let read = read_code(code, sizes, trees)?;
    if !canonical(&sizes[..read.components], &trees[..read.points]) {
        return Err(Refusal::NotCanonical);
    }
    Ok(read)
}
