// Tables of images as they come in: bytes that are points, at most 200.
#![tactic(auto)]

ghost use Rattle.std.specs.Prelude.{◌≡◌, ◌<◌, ◌≤◌, ◌↔◌, length, true, IsTrue, EachIndex, slice_index};
ghost use Rattle.patterns.specs.Table.{is_table};

use patterns::Refusal;

// A table that passes the checks: byte i is the image of point i.
#[derive(Clone, Copy)]
pub struct Table<'a> {
    pub images: &'a [u8],
    pub ghost table: { is_table images.now ≡ true },
    pub ghost small: { length images.now ≤ 200 },
}

// Each of these bytes is one of `n` points.
fn are_points(images: &[u8], n: usize) -> bool
    ensures { IsTrue result ↔ EachIndex images.now (λ k. slice_index images.now k < n) }
{
    images.iter().all(|y| usize::from(*y) < n)
}

impl<'a> Table<'a> {
    ghost use Rattle.tables.specs.Tables.{Checked};

    // The table whose images these are, or the cause of its refusal: first its length is checked, then its bytes.
    pub fn check(images: &'a [u8]) -> Result<Table<'a>, Refusal>
        ensures { Checked images.now result }
    {
        let n = images.len();
        if 200 < n {
            return Err(Refusal::Count);
        }
        if are_points(images, n) {
            Ok(Table { images })
        } else {
            Err(Refusal::Image)
        }
    }
}
