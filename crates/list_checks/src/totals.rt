// The list of all codes: how many there are, how many of them are connected, and how many tables they have together, which are all tables of so many points.
use case_calls::calls;
use case_text::faults::Fault;
use case_text::scores::Score;

// More codes than 10 points have.
const LIMIT: usize = 10000;

// How many codes a list has, how many of them have one component, and how many tables they have together.
#[derive(Clone, Copy, Debug, Default, PartialEq, Eq, Hash)]
struct Totals {
    codes: usize,
    connected: usize,
    tables: u64,
}

// The lists of 0 to 10 points: functional digraphs (OEIS A001372), connected ones (A002861, and none of no points), and n to the power n (A000312).
const KNOWN: [(usize, usize, u64); 11] = [
    (1, 0, 1),
    (1, 1, 1),
    (3, 2, 4),
    (7, 4, 27),
    (19, 9, 256),
    (47, 20, 3125),
    (130, 51, 46656),
    (343, 125, 823543),
    (951, 329, 16777216),
    (2615, 862, 387420489),
    (7318, 2311, 10000000000),
];

impl Totals {
    // Counts one code more. It has one component where its second number is 1.
    fn count(&mut self, code: &[u8]) -> Result<(), Fault> {
        self.codes = self.codes.saturating_add(1);
        if code.get(1) == Some(&1) {
            self.connected = self.connected.saturating_add(1);
        }
        self.tables = self.tables.saturating_add(calls::table_count(code)?);
        Ok(())
    }

    // Goes through the list of n points, up to the last.
    fn of_list(n: usize) -> Result<Totals, Fault> {
        let mut totals = Totals::default();
        let mut code = calls::first(n);
        for _ in 0..LIMIT {
            totals.count(code.as_slice())?;
            match calls::successor(code.as_slice()) {
                Ok(Some(next)) => code = next,
                Ok(None) => return Ok(totals),
                Err(_) => break,
            }
        }
        Err(Fault::Refused)
    }
}

// Of how many lists each number is right.
#[derive(Clone, Copy, Debug, Default, PartialEq, Eq, Hash)]
pub struct Scores {
    pub codes: Score,
    pub connected: Score,
    pub tables: Score,
}

// Compares the lists of 0 to 10 points. None is right of a list that does not end by "last".
pub fn compare() -> Scores {
    let mut scores = Scores::default();
    for (n, (codes, connected, tables)) in KNOWN.iter().copied().enumerate() {
        let found = Totals::of_list(n).ok();
        scores
            .codes
            .count(found.map(|found| found.codes) == Some(codes));
        scores
            .connected
            .count(found.map(|found| found.connected) == Some(connected));
        scores
            .tables
            .count(found.map(|found| found.tables) == Some(tables));
    }
    scores
}
