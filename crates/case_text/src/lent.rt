// Outputs that are lent to an entry. They are filled before the call and come back whole, so that what it leaves as it was can be told.
use crate::lists::{FILLING, List, PLACES};

// What a call answered, and all of the output, of which the first `room` places were lent.
#[derive(Clone, Copy, Debug)]
pub struct Called<A> {
    pub answer: A,
    pub bytes: [u8; 10000],
    pub room: usize,
}

impl<A: PartialEq> Called<A> {
    // Whether this was answered, and only this written.
    pub fn is(&self, answer: &A, written: &List) -> bool {
        self.answer == *answer && self.has_written(written)
    }
}

impl<A> Called<A> {
    // Whether the list fits what was lent, and the output begins with it and is as it was filled after it. What stands behind the list is compared too: a pattern
    // longer than its list does not hold.
    pub fn has_written(&self, written: &List) -> bool {
        written.len <= self.room && self.bytes == written.bytes
    }

    // The first so many bytes, where so many were lent and all others are as they were filled.
    pub fn beginning(&self, len: usize) -> Option<&[u8]> {
        let (beginning, rest) = self.bytes.split_at_checked(len)?;
        (len <= self.room && is_filled(rest)).then_some(beginning)
    }
}

// Calls an entry with so many places lent, or with all that there are.
pub fn call<A, F: FnOnce(&mut [u8]) -> A>(room: usize, entry: F) -> Called<A>
    requires { F.IsAlwaysCallable entry }
{
    let mut bytes = [FILLING; PLACES];
    let room = room.min(PLACES);
    let answer = entry(&mut bytes[..room]);
    Called {
        answer,
        bytes,
        room,
    }
}

pub fn is_filled(list: &[u8]) -> bool {
    list.iter().all(|&byte| byte == FILLING)
}
