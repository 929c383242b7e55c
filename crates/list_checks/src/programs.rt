// The text that the listing program writes for an input: a list for a count of points, and a line of its own for anything else.
use case_text::scores;
use case_text::scores::Score;
use std::rt::Files;

// More bytes than any text compared here has.
const ROOM: usize = 65536;

// The inputs for 0 to 8 points, and the files of their listings.
const LISTINGS: [(&str, &str); 9] = [
    ("0\n", "listing_0"),
    ("1\n", "listing_1"),
    ("2\n", "listing_2"),
    ("3\n", "listing_3"),
    ("4\n", "listing_4"),
    ("5\n", "listing_5"),
    ("6\n", "listing_6"),
    ("7\n", "listing_7"),
    ("8\n", "listing_8"),
];

// Inputs that are no count: empty, fifteen, a leading zero, no newline, a second newline, a second line, a sign, too many digits, a letter, a carriage return, and a
// newline alone.
const BAD_COUNTS: [&str; 11] = [
    "",
    "15\n",
    "03\n",
    "3",
    "3\n\n",
    "3\n4\n",
    "-1\n",
    "99999999999999999999\n",
    "n\n",
    "3\r\n",
    "\n",
];

// Whether what the program writes for an input is the text.
fn is_text(input: &[u8], text: &[u8]) -> bool {
    let mut out = [0; ROOM];
    let len = listing::text_into(input, &mut out);
    out.get(..len) == Some(text)
}

// How many of the listings of 0 to 8 points are those of the files.
pub fn listings(files: &impl Files) -> Score {
    let mut score = Score::default();
    for (input, name) in LISTINGS {
        let file = scores::load(files, name.as_bytes());
        score.count(is_text(input.as_bytes(), file.as_slice()));
    }
    score
}

// Of how many inputs the program says that they are no count.
pub fn bad_counts() -> Score {
    let mut score = Score::default();
    for input in BAD_COUNTS {
        score.count(is_text(input.as_bytes(), b"bad count\n"));
    }
    score
}
