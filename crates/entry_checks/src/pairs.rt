// Runs on pairs of maps of 200 points, the second a shuffled copy of the first: both have one code, the renaming that is found is one, the map of the code is
// isomorphic to the first, the successor of the code is accepted, and 1,000 steps forward and as many back lead to the code again.
use case_calls::calls;
use case_text::faults::Fault;
use case_text::lists::List;
use case_text::numbers::Numbers;
use case_text::scores;
use std::io;
use std::rt::Files;

// The steps of a walk through the list.
const STEPS: usize = 1000;

// The tables of a pair.
#[derive(Clone, Copy, Debug)]
struct Pair {
    f: List,
    g: List,
}

impl Pair {
    fn read(numbers: &mut Numbers<'_>) -> Result<Pair, Fault> {
        let f = numbers.list()?;
        let g = numbers.list()?;
        Ok(Pair { f, g })
    }
}

// Whether both tables have the same code, of more than no bytes, and the same stands behind it.
fn have_one_code(numbers: &mut Numbers<'_>) -> Result<bool, Fault> {
    let pair = Pair::read(numbers)?;
    let code = calls::code_of_map(pair.f.as_slice());
    Ok(code.len != 0 && code == calls::code_of_map(pair.g.as_slice()))
}

// Whether every point below the length of r stands once in r.
fn is_bijection(r: &[u8]) -> bool {
    let mut seen = [false; 256];
    for y in r.iter().copied().map(usize::from) {
        if r.len() <= y || seen[y] {
            return false;
        }
        seen[y] = true;
    }
    true
}

// Whether every arrow of f is an arrow of g under r: f and then r leads where r and then g lead.
fn are_arrows(f: &[u8], g: &[u8], r: &[u8]) -> bool {
    f.iter().zip(r).all(|(&image, &renamed)| {
        let there = r.get(usize::from(image));
        there.is_some() && there == g.get(usize::from(renamed))
    })
}

// Whether r is a renaming of the points of f, of which there are some, that makes it g.
fn is_renaming(f: &[u8], g: &[u8], r: &[u8]) -> bool {
    !r.is_empty() && r.len() == f.len() && is_bijection(r) && are_arrows(f, g, r)
}

// Whether an isomorphism of the two tables is found, and is one.
fn is_isomorphic(f: &[u8], g: &[u8]) -> bool {
    is_renaming(f, g, calls::isomorphism(f, g).as_slice())
}

fn are_isomorphic(numbers: &mut Numbers<'_>) -> Result<bool, Fault> {
    let pair = Pair::read(numbers)?;
    Ok(is_isomorphic(pair.f.as_slice(), pair.g.as_slice()))
}

// Whether the map of the code of f has that code too, and is isomorphic to f.
fn is_coded_again(numbers: &mut Numbers<'_>) -> Result<bool, Fault> {
    let pair = Pair::read(numbers)?;
    let f = pair.f.as_slice();
    let code = calls::code_of_map(f);
    let map = calls::map_of_code(code.as_slice());
    let table = map.as_slice();
    Ok(code == calls::code_of_map(table) && is_isomorphic(f, table))
}

// Whether the code of f has a successor that is accepted, of as many points.
fn is_followed(numbers: &mut Numbers<'_>) -> Result<bool, Fault> {
    let pair = Pair::read(numbers)?;
    let code = calls::code_of_map(pair.f.as_slice());
    Ok(match calls::successor(code.as_slice()) {
        Ok(Some(next)) => calls::is_accepted(next.as_slice(), pair.f.len),
        _ => false,
    })
}

// Walks from a code on, up to the last where that comes before all steps are made, and answers the code that was come to and the steps.
fn go_forward(code: List) -> Result<(List, usize), Fault> {
    let mut here = code;
    for steps in 0..STEPS {
        match calls::successor(here.as_slice()) {
            Ok(Some(next)) => here = next,
            Ok(None) => return Ok((here, steps)),
            Err(_) => return Err(Fault::Refused),
        }
    }
    Ok((here, STEPS))
}

// The code so many steps back.
fn go_back(code: List, steps: usize) -> Result<List, Fault> {
    let mut here = code;
    for _ in 0..steps {
        match calls::predecessor(here.as_slice()) {
            Ok(Some(previous)) => here = previous,
            _ => return Err(Fault::Refused),
        }
    }
    Ok(here)
}

// Whether a walk from the code of f on, which has more than no bytes, and as many steps back lead to the same bytes, with the same behind them.
fn is_returned_to(numbers: &mut Numbers<'_>) -> Result<bool, Fault> {
    let pair = Pair::read(numbers)?;
    let code = calls::code_of_map(pair.f.as_slice());
    let (there, steps) = go_forward(code)?;
    Ok(code.len != 0 && code == go_back(there, steps)?)
}

// The pairs of the file of this name, two lists a line.
pub fn run(rt: &(impl Files + Print), name: &[u8]) -> io::Result<()> {
    scores::run(rt, name, b"200 points, equal codes", have_one_code)?;
    scores::run(rt, name, b"200 points, isomorphisms", are_isomorphic)?;
    scores::run(rt, name, b"200 points, maps of codes", is_coded_again)?;
    scores::run(rt, name, b"200 points, successors accepted", is_followed)?;
    scores::run(
        rt,
        name,
        b"200 points, 1,000 steps and back",
        is_returned_to,
    )
}
