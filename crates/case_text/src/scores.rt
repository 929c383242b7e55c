// Files of cases, one a line, and how many of the comparisons of a group hold.
use crate::faults::Fault;
use crate::numbers::Numbers;
use std::io::Write;
use std::rt::Files;
use std::{fmt, fs, io, str};

// Of how many comparisons how many hold.
#[derive(Clone, Copy, Debug, Default, PartialEq, Eq, Hash)]
pub struct Score {
    pub held: usize,
    pub total: usize,
}

impl Score {
    // Counts one comparison more.
    pub fn count(&mut self, holds: bool) {
        self.held = self.held.saturating_add(usize::from(holds));
        self.total = self.total.saturating_add(1);
    }
}

impl fmt::Display for Score {
    fn fmt<W: fmt::Write>(&self, f: &mut fmt::Formatter<W>) -> fmt::Result {
        let held = self.held;
        let total = self.total;
        write!(f, "{held} of {total}")
    }
}

// A file: its first `len` bytes.
#[derive(Clone, Copy, Debug)]
pub struct File {
    pub bytes: [u8; 65536],
    pub len: usize,
}

impl File {
    pub fn as_slice(&self) -> &[u8] {
        self.bytes.get(..self.len).unwrap_or(&self.bytes)
    }
}

// Reads the file of this name into `out`, and answers how many bytes it has there; none where it cannot be opened.
fn read_file(files: &impl Files, name: &[u8], out: &mut [u8]) -> Option<usize> {
    let name = str::from_utf8(name).ok()?;
    let mut file = fs::open(files, name).ok()?;
    Some(input::read_full(&mut file, out))
}

// The file of this name, up to its first 65,536 bytes; one of no bytes where it cannot be opened.
pub fn load(files: &impl Files, name: &[u8]) -> File {
    let mut bytes = [0; 65536];
    let len = read_file(files, name, &mut bytes).unwrap_or(0);
    File { bytes, len }
}

// The line of a group.
pub fn report(to: &impl Print, group: &[u8], score: Score) -> io::Result<()> {
    io::writer(to).write_all(group)?;
    println!(to; ": {score}")
}

// Of how many lines `holds` is true. A line on which it fails, of which it leaves numbers, or that is no text, does not hold.
fn score_of<F: FnMut(&mut Numbers<'_>) -> Result<bool, Fault>>(lines: &[u8], mut holds: F) -> Score
    requires { F.IsAlwaysCallable holds }
{
    let mut score = Score::default();
    for line in lines.split_inclusive(|&byte| byte == b'\n') {
        let held = match str::from_utf8(line) {
            Ok(text) => {
                let mut numbers = Numbers::of(text);
                holds(&mut numbers) == Ok(true) && numbers.is_done()
            }
            Err(_) => false,
        };
        score.count(held);
    }
    score
}

// The cases of the file of this name, as the group of this name.
pub fn run<R, F>(rt: &R, name: &[u8], group: &[u8], holds: F) -> io::Result<()>
where
    R: Files + Print,
    F: FnMut(&mut Numbers<'_>) -> Result<bool, Fault>,
    requires { F.IsAlwaysCallable holds }
{
    let file = load(rt, name);
    report(rt, group, score_of(file.as_slice(), holds))
}
