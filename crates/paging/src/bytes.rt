// The bytes of a page.
ghost use Rattle.std.specs.Prelude.{take, Ok};
ghost use Rattle.patterns.specs.System.{System};
ghost use Rattle.patterns.specs.Page.{successors};
ghost use Rattle.patterns.specs.Replies.{page_answer};
ghost use Rattle.memory.specs.Memory.{Holds};
ghost use Rattle.paging.specs.HeldPages.{PageRoom, PagePut};

use patterns::Page;
use stepping::follow;
use writing::StoredSystem;

// Writes the next `wanted` codes into the first places of `out`, which has room for them. Memory then holds the last of them.
pub fn write_page(
    sizes: &mut [u8],
    m: usize,
    trees: &mut [u8],
    wanted: usize,
    out: &mut [u8],
) -> Page
    requires { PageRoom sizes.old m trees.old wanted out.old }
    ensures { (S : System) → Holds S (take m sizes.old) trees.old
        → PagePut (successors wanted S) out.old (page_answer (Ok result)) out.new }
{
    let mut k = m;
    let mut at = 0;
    for i in 0..wanted {
        let Some(count) = follow(sizes, k, trees) else {
            return Page {
                codes: i,
                bytes: at,
            };
        };
        let sizes = &sizes[..count];
        at = StoredSystem { sizes, trees }.write(out, at);
        k = count;
    }
    Page {
        codes: wanted,
        bytes: at,
    }
}
