// Lines on which the two comparisons of a census agree, and lines on which they differ.
use super::{holds, holds_whole};
use case_text::faults::Fault;
use case_text::numbers::Numbers;
use std::test::Fail;

const YES: Result<bool, Fault> = Ok(true);

const NO: Result<bool, Fault> = Ok(false);

const BAD: Result<bool, Fault> = Err(Fault::Malformed);

// A line, and what `holds` and `holds_whole` answer on it.
const LINES: [(&str, Result<bool, Fault>, Result<bool, Fault>); 32] = [
    // three points that all go to the first; then a wrong row, a wrong number of rows, half a row, a kind that a census has not, and a list that ends early
    ("24 3 3 0 0 0 0 0 0 1 3 3 1 1 1", YES, YES),
    ("24 3 1 0 0 0 0 1 3 1 1", YES, YES),
    ("1 3 1 0 0 0 0 1 3 1 1", YES, YES),
    ("1000000 3 1 0 0 0 0 1 3 1 1", YES, YES),
    ("24 3 1 0 0 0 0 1 3 2 1 2", NO, NO),
    ("24 3 1 0 0 0 0 2 3 1 1", NO, BAD),
    ("24 3 1 0 0 0 0 1 2 1 1", BAD, BAD),
    ("24 3 1 0 0 0 1 0 3 1 1", BAD, BAD),
    ("24 3 1 0 0 0 0 1 3", BAD, BAD),
    // no place
    ("0 3 1 0 0 0 3 8 0 0", YES, YES),
    ("0 3 1 0 0 0 0 1 3 1 1", NO, NO),
    // rows more than are told: as they were filled, not, without a place, and half of one
    ("24 3 1 0 0 0 0 1 5 5 1 1 1 170 170", YES, BAD),
    ("24 3 1 0 0 0 0 1 5 5 1 1 1 170 171", NO, BAD),
    ("1 3 1 0 0 0 0 1 5 5 1 1 1 170 170", NO, BAD),
    ("24 3 1 0 0 0 0 1 4 4 1 1 1 170", BAD, BAD),
    // rows more than are compared one by one: as they were filled, and not
    (
        "100 3 1 0 0 0 0 1 51 51 1 1 1 170 170 170 170 170 170 170 170 170 170 170 170 170 170 170 170 170 170 170 170 170 170 170 170 170 170 170 170 170 170 170 170 170 170 170 170 170 170 170 170 170 170 170 170 170 170 170 170",
        YES,
        BAD,
    ),
    (
        "100 3 1 0 0 0 0 1 51 51 1 1 1 170 170 170 170 170 170 170 170 170 170 170 170 170 170 170 170 170 170 170 170 170 170 170 170 170 170 170 170 170 170 170 170 170 170 170 170 170 170 170 170 170 170 170 170 170 170 170 171",
        NO,
        BAD,
    ),
    (
        "100 3 1 0 0 0 0 1 51 51 1 1 1 170 170 170 170 170 170 170 170 170 170 170 170 170 170 170 170 170 170 170 170 170 170 170 170 170 170 170 170 170 170 170 170 170 170 170 170 170 170 170 170 170 170 170 170 170 170 171 170",
        NO,
        BAD,
    ),
    (
        "100 3 1 0 0 0 0 1 101 50 1 1 1 170 170 170 170 170 170 170 170 170 170 170 170 170 170 170 170 170 170 170 170 170 170 170 170 170 170 170 170 170 170 170 170 170 170 170 170 170 170 170 170 170 170 170 170 170 170 170",
        NO,
        BAD,
    ),
    // 171 points along a path, whose height is the filling: of the bytes that are no filling no one stands behind the beginning
    (
        "100 171 171 0 0 1 2 3 4 5 6 7 8 9 10 11 12 13 14 15 16 17 18 19 20 21 22 23 24 25 26 27 28 29 30 31 32 33 34 35 36 37 38 39 40 41 42 43 44 45 46 47 48 49 50 51 52 53 54 55 56 57 58 59 60 61 62 63 64 65 66 67 68 69 70 71 72 73 74 75 76 77 78 79 80 81 82 83 84 85 86 87 88 89 90 91 92 93 94 95 96 97 98 99 100 101 102 103 104 105 106 107 108 109 110 111 112 113 114 115 116 117 118 119 120 121 122 123 124 125 126 127 128 129 130 131 132 133 134 135 136 137 138 139 140 141 142 143 144 145 146 147 148 149 150 151 152 153 154 155 156 157 158 159 160 161 162 163 164 165 166 167 168 169 0 0 0 1 51 50 170 1 1 170 170 170 170 170 170 170 170 170 170 170 170 170 170 170 170 170 170 170 170 170 170 170 170 170 170 170 170 170 170 170 170 170 170 170 170 170 170 170 170 170 170 170 170 170 170 170",
        YES,
        BAD,
    ),
    // a pattern that is longer than its list
    ("24 3 1 0 0 0 0 1 3 4 1 1 1 9", YES, NO),
    (
        "100 3 1 0 0 0 0 1 51 60 1 1 1 170 170 170 170 170 170 170 170 170 170 170 170 170 170 170 170 170 170 170 170 170 170 170 170 170 170 170 170 170 170 170 170 170 170 170 170 170 170 170 170 170 170 170 170 170 170 170 170 5 5 5 5 5 5 5 5 5",
        YES,
        BAD,
    ),
    // a second list without a pattern, and one of 4 bytes
    ("24 3 1 0 4 0 0 1 3 1 1", YES, NO),
    ("24 3 1 0 4 1 0 0 1 3 1 1", NO, NO),
    // a table without a pattern: no points, or five of image 170
    ("24 5 0 0 0 0 0 1 1 0", YES, NO),
    ("24 5 0 0 0 3 2 0 0", NO, YES),
    // the image 2 of two points: an empty list, one without a pattern, one of no length with a pattern, and one of a byte
    ("24 2 2 2 1 0 0 3 2 0 0", YES, YES),
    ("24 2 2 2 1 0 0 3 2 10 0", YES, BAD),
    (
        "24 2 2 2 1 0 0 3 2 0 50 170 170 170 170 170 170 170 170 170 170 170 170 170 170 170 170 170 170 170 170 170 170 170 170 170 170 170 170 170 170 170 170 170 170 170 170 170 170 170 170 170 170 170 170 170 170 170 170 170 1",
        YES,
        BAD,
    ),
    ("24 2 2 2 1 0 0 3 2 1 1 170", BAD, BAD),
    // 201 points, and 20,000
    ("24 201 1 0 0 0 3 1 0 0", YES, YES),
    ("24 20000 1 0 0 0 3 1 0 0", YES, YES),
];

#[test]
fn lines_hold(rt: HostRuntime) -> Result<(), Fail> {
    for (line, wanted, wanted_whole) in LINES {
        if holds(rt.alloc(), &mut Numbers::of(line)) != wanted {
            return Err(Fail::from(line));
        }
        if holds_whole(&mut Numbers::of(line)) != wanted_whole {
            return Err(Fail::from(line));
        }
    }
    Ok(())
}
