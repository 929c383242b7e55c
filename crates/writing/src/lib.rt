// The written code of a system in memory [document 01, "The written code"]: how long it is, where a component begins in it, and its bytes, at a place with
// room for them or refused for want of room.
#![tactic(auto)]

ghost use Rattle.std.specs.Prelude.{◌≡◌, ◌≤◌, ◌+◌, ltb, length};
ghost use Rattle.lists.specs.Select.{gather};
ghost use Rattle.patterns.specs.Component.{Component, flat};
ghost use Rattle.patterns.specs.System.{System};
ghost use Rattle.patterns.specs.Written.{write_number, bytes as bytes_of, component_numbers, written};
ghost use Rattle.patterns.specs.Replies.{answer_of};
ghost use Rattle.patterns.specs.Entry.{Replied, Outcome.gives};
ghost use Rattle.memory.specs.Memory.{Holds, HeldSystem};
ghost use Rattle.written.specs.Putting.{Placed};
ghost use Rattle.writing.specs.Writable.{HeldComponent, ComponentRoom, ComponentsRoom, SystemRoom};
ghost use Rattle.writing.specs.Passed.{Passed};
ghost use Rattle.writing.specs.HeldParts.{HeldSystem-prop};

use patterns::{Refusal, Reply};
use trees::count;
use written::put_number;

// How many bytes a number takes.
fn width(x: usize) -> usize
    ensures { result ≡ length (write_number x) }
{
    if x < 128 { 1 } else { 2 }
}

// How many bytes the numbers of `s` take.
fn total_width(s: &[u8]) -> usize
    requires { length s.now ≤ 200 }
    ensures { result ≡ length (bytes_of s.now) }
{
    s.iter().map(|x| width(usize::from(*x))).sum()
}

// How many bytes a component takes: the number of its trees, then their codes.
pub fn component_width(s: &[u8]) -> usize
    requires { HeldComponent s.now }
    ensures { (c : Component) → s.now ≡ flat c → result ≡ length (bytes_of (component_numbers c)) }
{
    let k = count(s);
    width(k) + total_width(s)
}

// Where a component begins: its bytes in the written code, and its trees in memory.
#[derive(Clone, Copy, Debug, PartialEq, Eq, Hash)]
pub struct Beginning {
    pub start: usize,
    pub from: usize,
}

// Writes the numbers of `s` from `at` on, and answers the place after them.
fn write_numbers(s: &[u8], out: &mut [u8], at: usize) -> usize
    requires { at + length (bytes_of s.now) ≤ length out.old }
    ensures { Placed (bytes_of s.now) at out.old result out.new }
{
    let mut next = at;
    for x in s {
        next = put_number(usize::from(*x), out, next);
    }
    next
}

// Writes a component from `at` on, the number of its trees and their codes, and answers the place after it.
fn write_component(s: &[u8], out: &mut [u8], at: usize) -> usize
    requires { ComponentRoom s.now out.old at }
    ensures { (c : Component) → s.now ≡ flat c
        → Placed (bytes_of (component_numbers c)) at out.old result out.new }
{
    let k = count(s);
    let next = put_number(k, out, at);
    write_numbers(s, out, next)
}

// A system in memory: the points of each component, and the components one after another.
#[derive(Clone, Copy)]
pub struct StoredSystem<'a> {
    pub sizes: &'a [u8],
    pub trees: &'a [u8],
    pub ghost held: { HeldSystem sizes.now trees.now } by { HeldSystem-prop sizes.now trees.now },
}

impl<'a> StoredSystem<'a> {
    // Where the component at `position` begins; behind the last component, where the code and the trees end.
    pub fn beginning_of(self, position: usize) -> Beginning
        requires { position ≤ length self.sizes.now }
        ensures { (S : System) → Holds S self.entry.sizes.now self.entry.trees.now → Passed S position result.from result.start }
    {
        let mut start = width(self.trees.len()) + width(self.sizes.len());
        let mut from = 0;
        for size in &self.sizes[..position] {
            let to = from + usize::from(*size);
            start += component_width(&self.trees[from..to]);
            from = to;
        }
        Beginning { start, from }
    }

    // How many bytes its written code takes.
    pub fn length(self) -> usize
        ensures { (S : System) → Holds S self.entry.sizes.now self.entry.trees.now → result ≡ length (written S) }
    {
        self.beginning_of(self.sizes.len()).start
    }

    // Writes the components one after another from `at` on, and answers the place after them.
    fn write_components(self, out: &mut [u8], at: usize) -> usize
        requires { ComponentsRoom self.sizes.now self.trees.now out.old at }
        ensures { (S : System) → Holds S self.entry.sizes.now self.entry.trees.now
            → Placed (bytes_of (gather component_numbers S)) at out.old result out.new }
    {
        let mut from = 0;
        let mut next = at;
        for size in self.sizes {
            let to = from + usize::from(*size);
            next = write_component(&self.trees[from..to], out, next);
            from = to;
        }
        next
    }

    // Writes the written code from `at` on, and answers the place after it.
    pub fn write(self, out: &mut [u8], at: usize) -> usize
        requires { SystemRoom self.sizes.now self.trees.now out.old at }
        ensures { (S : System) → Holds S self.entry.sizes.now self.entry.trees.now
            → Placed (written S) at out.old result out.new }
    {
        let front = put_number(self.trees.len(), out, at);
        let next = put_number(self.sizes.len(), out, front);
        self.write_components(out, next)
    }

    // `room` bytes are too few for the written code. 1,000 bytes hold every code [document 01, "The written code"], so it is measured only where there are fewer.
    fn lacks_room(self, room: usize) -> bool
        ensures { (S : System) → Holds S self.entry.sizes.now self.entry.trees.now → result ≡ ltb room (length (written S)) }
    {
        room < 1000 && room < self.length()
    }

    // Puts the written code into the first places of `out`, where there is room for it.
    pub fn put(self, out: &mut [u8]) -> Reply
        ensures { (S : System) → Holds S self.entry.sizes.now self.entry.trees.now
            → Replied (gives (written S)) out.old (answer_of result) out.new }
    {
        if self.lacks_room(out.len()) {
            return Err(Refusal::Room);
        }
        Ok(self.write(out, 0))
    }
}
