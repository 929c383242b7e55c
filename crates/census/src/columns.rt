// The rows of a census, held in two columns.
ghost use Rattle.std.specs.Prelude.{◌≡◌, ◌<◌, ◌≤◌, take};
ghost use Rattle.patterns.specs.Replies.{row_of};

use patterns::Row;

// Row i, i below `rows`: `counts[i]` cycles have `lengths[i]` points. No list of rows: a period and a census in two columns take a column as it stands.
#[derive(Clone, Copy, Debug)]
pub struct Rows {
    pub lengths: [u8; 19],
    pub counts: [u8; 19],
    pub rows: usize,
}

impl Rows {
    ghost use Rattle.census.specs.Entries.{row_in};

    // The cycle lengths that occur.
    pub fn lengths(&self) -> &[u8]
        requires { self.now.rows ≤ 19 }
        ensures { result.now ≡ take self.now.rows self.now.lengths }
    {
        &self.lengths[..self.rows]
    }

    // How many cycles have each of them.
    pub fn counts(&self) -> &[u8]
        requires { self.now.rows ≤ 19 }
        ensures { result.now ≡ take self.now.rows self.now.counts }
    {
        &self.counts[..self.rows]
    }

    // Row `i`.
    pub fn row(&self, i: usize) -> Row
        requires { i < 19 }
        ensures { row_of result ≡ row_in self.now i }
    {
        let cycle_length = self.lengths[i];
        let cycles = self.counts[i];
        Row {
            cycle_length,
            cycles,
        }
    }
}
