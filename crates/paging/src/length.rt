// The length of a page.
ghost use Rattle.std.specs.Prelude.{◌≡◌, length, take};
ghost use Rattle.patterns.specs.System.{System};
ghost use Rattle.patterns.specs.Page.{successors, page_bytes};
ghost use Rattle.memory.specs.Memory.{Holds};
ghost use Rattle.paging.specs.HeldPages.{HeldPage};

use stepping::follow;
use writing::StoredSystem;

// How many bytes the next `wanted` codes take. Memory then holds the last of them.
pub fn page_length(sizes: &mut [u8], m: usize, trees: &mut [u8], wanted: usize) -> usize
    requires { HeldPage sizes.old m trees.old wanted }
    ensures { (S : System) → Holds S (take m sizes.old) trees.old
        → result ≡ length (page_bytes (successors wanted S)) }
{
    let mut k = m;
    let mut bytes = 0;
    for _ in 0..wanted {
        let Some(count) = follow(sizes, k, trees) else {
            return bytes;
        };
        let sizes = &sizes[..count];
        bytes += StoredSystem { sizes, trees }.length();
        k = count;
    }
    bytes
}
