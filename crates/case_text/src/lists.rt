// Lists of up to 10,000 bytes by value, in fixed memory.

// What stands in every place that no list has. Lent output holds it before a call.
pub const FILLING: u8 = 170;

// The places of a list, and of an output.
pub const PLACES: usize = 10000;

// The first `len` bytes are the list. `==` compares what stands behind it too.
#[derive(Clone, Copy, Debug, PartialEq, Eq)]
pub struct List {
    pub bytes: [u8; 10000],
    pub len: usize,
}

impl List {
    // The list of no bytes.
    pub fn empty() -> List {
        List {
            bytes: [FILLING; PLACES],
            len: 0,
        }
    }

    // Of a list that is longer than its places as much as they hold.
    pub fn as_slice(&self) -> &[u8] {
        self.bytes.get(..self.len).unwrap_or(&self.bytes)
    }

    // Puts a byte into so many places after the list, as far as there are so many.
    pub fn put(&mut self, byte: u8, count: usize) {
        let end = self.len.saturating_add(count).min(PLACES);
        if let Some(places) = self.bytes.get_mut(self.len..end) {
            places.fill(byte);
        }
        self.len = end;
    }
}
