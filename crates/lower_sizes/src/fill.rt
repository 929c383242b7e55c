// The last components that fill a list of sizes.
ghost use Rattle.std.specs.Prelude.{◌≡◌, length};
ghost use Rattle.lists.specs.Select.{gather};
ghost use Rattle.patterns.specs.Component.{flat};
ghost use Rattle.component_theory.specs.Successor.{last_component};
ghost use Rattle.system_theory.specs.StepBack.{lasts};
ghost use Rattle.size_lists.specs.SizesHeld.{sum};

// The last component of as many points as the slice has places: the last two of the points of a cycle are merged.
fn last_component(out: &mut [u8])
    ensures { out.new ≡ flat (last_component (length out.old)) }
{
    out.fill(1);
    let size = out.len();
    if 2 <= size {
        out[size - 2] = 2;
    }
}

// The last components of these sizes, one after another.
pub fn last_right(sizes: &[u8], trees: &mut [u8])
    requires { sum sizes.now ≡ length trees.old }
    ensures { trees.new ≡ gather flat (lasts sizes.now) }
{
    let mut at = 0;
    for size in sizes {
        let end = at + *size as usize;
        last_component(&mut trees[at..end]);
        at = end;
    }
}
