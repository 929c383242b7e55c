// The replies of the public entries [document 01, "Refusing"]: a result, or the cause of a refusal. What each case means in document 01's words is said in specs/Replies.antt.
use crate::Refusal;

// The length of what was written, or n.
pub type Reply = Result<usize, Refusal>;

// The length of what was written, where there is something to write; for the entry "successor" none is "last", for "predecessor" [document 02, paper 3] "first", and for
// "renaming between two maps" "none".
pub type Found = Result<Option<usize>, Refusal>;

// How many codes a page has [document 02, paper 2], and how many bytes they take together.
#[derive(Clone, Copy, Debug, PartialEq, Eq, Hash)]
pub struct Page {
    pub codes: usize,
    pub bytes: usize,
}

// The number of rows, and the greatest distance of a point from its cycle.
#[derive(Clone, Copy, Debug, PartialEq, Eq, Hash)]
pub struct Census {
    pub rows: usize,
    pub height: usize,
}

// A census row [document 01: census entry]: a cycle length, and the number of cycles of that length.
#[derive(Clone, Copy, Debug, PartialEq, Eq, Hash)]
pub struct Row {
    pub cycle_length: u8,
    pub cycles: u8,
}

// Where the bytes of a component begin and end in a code, and how many of its rotations equal it [document 02, paper 6: turns].
#[derive(Clone, Copy, Debug, PartialEq, Eq, Hash)]
pub struct Stretch {
    pub start: usize,
    pub end: usize,
    pub turns: usize,
}

// The length of a code that was written, and its period, the greatest that a map of as many points has [document 02, paper 9].
#[derive(Clone, Copy, Debug, PartialEq, Eq, Hash)]
pub struct GreatestPeriod {
    pub length: usize,
    pub period: u64,
}
