// The part of a written code that shows a component [document 01, "Refusing", last paragraph]: where it stands, how many of the
// component's rotations equal it [document 02, paper 6], and its bytes in their place.
#![tactic(auto)]

ghost use Rattle.std.specs.Prelude.{◌≡◌, ◌+◌, ◌≤◌, length};
ghost use Rattle.patterns.specs.Component.{Component, flat, rotation_symmetry};
ghost use Rattle.patterns.specs.System.{System};
ghost use Rattle.patterns.specs.Written.{bytes as bytes_of, component_numbers};
ghost use Rattle.patterns.specs.Replies.{part_answer, PartAnswer.part_is};
ghost use Rattle.patterns.specs.Entry.{component_in, component_of, part_answered, Shown};
ghost use Rattle.memory.specs.Memory.{Holds};
ghost use Rattle.memory.specs.HeldCode.{HeldValid, HeldCanonical};

use acceptance::accept_into;
use components::least_rotation;
use patterns::{Refusal, Stretch, points_room};
use writing::{StoredSystem, component_width};

// The part of a code from `start` on that shows a component. No rotation of the component is less, so there is a number of those that equal it.
fn part_from(component: &[u8], start: usize) -> Stretch
    requires { HeldValid component.now × (start ≤ 804) }
    ensures { (c : Component) → component.now ≡ flat c
        → part_answer (Ok result) ≡ part_is start (start + length (bytes_of (component_numbers c))) (rotation_symmetry c) }
{
    let end = start + component_width(component);
    let turns = least_rotation(component).unwrap();
    Stretch { start, end, turns }
}

// The part that shows the component at `position` in the written code of the system.
fn part_in(sizes: &[u8], trees: &[u8], position: usize) -> Result<Stretch, Refusal>
    requires { HeldCanonical sizes.now trees.now }
    ensures { (S : System) → Holds S sizes.now trees.now
        → part_answer result ≡ part_answered (component_in S position) }
{
    if sizes.len() <= position {
        return Err(Refusal::Position);
    }
    let begin = StoredSystem { sizes, trees }.beginning_of(position);
    let from = begin.from;
    let to = from + usize::from(sizes[position]);
    let found = part_from(&trees[from..to], begin.start);
    Ok(found)
}

// Where the component at `position`, counted from 0, stands in `code`, and how many of its rotations equal it. The code's own faults come first.
pub fn stretch_of(code: &[u8], position: usize) -> Result<Stretch, Refusal>
    ensures { part_answer result ≡ part_answered (component_of code.now position) }
{
    let mut sizes = points_room();
    let mut trees = points_room();
    let accepted = accept_into(code, &mut sizes, &mut trees)?;
    part_in(
        &sizes[..accepted.components],
        &trees[..accepted.points],
        position,
    )
}

// The bytes of the component at `position` where they stand in `code`; where there is a refusal, none.
pub fn part_of(code: &[u8], position: usize) -> &[u8]
    ensures { Shown code.entry (component_of code.now position) result }
{
    match stretch_of(code, position) {
        Ok(part) => &code[part.start..part.end],
        Err(_) => &code[0..0],
    }
}
