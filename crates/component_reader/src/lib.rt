// The component reader [document 01, "Refusing", last paragraph]: it shows the bytes of one component at a time, as a part of the code that it was
// given. A reader is a code and a position. Its methods are thin: what they answer is found by functions on a slice and a number.
#![tactic(auto)]

ghost use Rattle.std.specs.Prelude.{◌≡◌};
ghost use Rattle.patterns.specs.Replies.{part_answer};
ghost use Rattle.patterns.specs.Entry.{component_of, part_answered, Shown};

pub use component_parts::{part_of, stretch_of};
use patterns::{Refusal, Stretch};

// The component reader: a code that it was given, and a position in it, counted from 0.
#[derive(Clone, Copy, Debug, PartialEq, Eq, Hash)]
pub struct ComponentReader<'a> {
    pub code: &'a [u8],
    pub position: usize,
}

impl<'a> ComponentReader<'a> {
    // A reader of `code`, at the first component.
    pub fn new(code: &'a [u8]) -> ComponentReader<'a>
        ensures { (result.code ≡ code.entry) × (result.position ≡ 0) }
    {
        ComponentReader { code, position: 0 }
    }

    // A reader of the same code, at `position`.
    pub fn moved(self, position: usize) -> ComponentReader<'a>
        ensures { (result.code ≡ self.entry.code) × (result.position ≡ position) }
    {
        ComponentReader { position, ..self }
    }

    // Where the component that the reader is at stands in its code and how many of its rotations equal it, or the cause of a refusal.
    pub fn reply(self) -> Result<Stretch, Refusal>
        ensures { part_answer result ≡ part_answered (component_of self.entry.code.now self.entry.position) }
    {
        stretch_of(self.code, self.position)
    }

    // The bytes of the component that the reader is at, where they stand in its code; where there is a refusal, none.
    pub fn shown(self) -> &'a [u8]
        ensures { Shown self.entry.code (component_of self.entry.code.now self.entry.position) result }
    {
        part_of(self.code, self.position)
    }
}

// What a reader of `code` shows at `position`, for callers that hold no reader.
pub fn component<'a>(code: &'a [u8], position: usize) -> &'a [u8]
    ensures { Shown code.entry (component_of code.now position) result }
{
    ComponentReader::new(code).moved(position).shown()
}
