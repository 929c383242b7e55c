// The causes of a refusal [document 01, "Refusing", and document 02] with the numbers that these give them, the replies of the public entries, and room for a number
// for each point of the largest map.
#![tactic(auto)]

mod reply;

ghost use Rattle.std.specs.Prelude.{◌≡◌, length};
ghost use Rattle.patterns.specs.Replies.{number_of};

pub use reply::{Census, Found, GreatestPeriod, Page, Reply, Row, Stretch};

// Why an entry refuses, with the number of the cause.
#[derive(Clone, Copy, Debug, PartialEq, Eq, Hash)]
pub enum Refusal {
    Count = 1,
    Image = 2,
    Truncated = 3,
    NumberForm = 4,
    Sizes = 5,
    NotCanonical = 6,
    Trailing = 7,
    Room = 8,
    Position = 9,
    Wanted = 10,
    TooLarge = 11,
    Uncounted = 12,
    TooManyPoints = 13,
    LineForm = 14,
    OutDegree = 15,
}

impl From<Refusal> for u8 {
    ghost from_gives = { λ cause n. n ≡ number_of cause };

    fn from(cause: Refusal) -> u8 {
        cause as u8
    }
}

// Room for a number for each point of a map: at most 200.
pub fn points_room() -> [u8; 200]
    ensures { length result ≡ 200 }
{
    [0u8; 200]
}
