// The public entry that writes a page of codes [document 02, paper 2]: page.
#![tactic(auto)]

ghost use Rattle.std.specs.Prelude.{◌≡◌, ltb, length, take};
ghost use Rattle.patterns.specs.System.{System};
ghost use Rattle.patterns.specs.Reading.{Result.done};
ghost use Rattle.patterns.specs.Page.{successors, page_bytes, page_of, PageReplied};
ghost use Rattle.patterns.specs.Replies.{page_answer};
ghost use Rattle.memory.specs.Memory.{Holds};
ghost use Rattle.page_entry.specs.HeldCopies.{HeldCopies};

use acceptance::accept_into;
use paging::{page_length, write_page};
use patterns::{Page, Refusal, points_room};

// `room` bytes are too few for the page. 1,000 bytes hold every code [document 01, "The written code"], so it is measured only where there are fewer for each;
// the system is taken by value, two arrays with their lengths, since measuring moves it on and there is no heap.
fn lacks_room(
    mut sizes: [u8; 200],
    m: usize,
    mut trees: [u8; 200],
    n: usize,
    wanted: usize,
    room: usize,
) -> bool
    requires { HeldCopies sizes m trees n wanted }
    ensures { (S : System) → Holds S (take m sizes) (take n trees) → result ≡ ltb room (length (page_bytes (successors wanted S))) }
{
    if 1000 * wanted <= room {
        return false;
    }
    room < page_length(&mut sizes, m, &mut trees[..n], wanted)
}

// Puts the page into the first places of `out`, where there is room for all of it.
fn put_page(
    mut sizes: [u8; 200],
    m: usize,
    mut trees: [u8; 200],
    n: usize,
    wanted: usize,
    out: &mut [u8],
) -> Result<Page, Refusal>
    requires { HeldCopies sizes m trees n wanted }
    ensures { (S : System) → Holds S (take m sizes) (take n trees)
        → PageReplied (done (successors wanted S)) out.old (page_answer result) out.new }
{
    if lacks_room(sizes, m, trees, n, wanted, out.len()) {
        return Err(Refusal::Room);
    }
    Ok(write_page(&mut sizes, m, &mut trees[..n], wanted, out))
}

// Writes the next `wanted` codes after `code`, one after another, and says how many they are and how many bytes they take.
pub fn page(code: &[u8], wanted: usize, out: &mut [u8]) -> Result<Page, Refusal>
    ensures { PageReplied (page_of wanted code.now) out.old (page_answer result) out.new }
{
    if 1000 < wanted {
        return Err(Refusal::Wanted);
    }
    let mut sizes = points_room();
    let mut trees = points_room();
    let read = accept_into(code, &mut sizes, &mut trees)?;
    put_page(sizes, read.components, trees, read.points, wanted, out)
}
