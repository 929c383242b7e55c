// Each reply of the engine as a signed number, those of a page and of the greatest period as two, for callers in C: what was counted as it is, a refusal as minus the number of its cause.
#![tactic(auto)]

ghost use Rattle.std.specs.Prelude.{◌≡◌, pos};
ghost use Rattle.std.specs.Int.{w64};
ghost use Rattle.std.proofs.Common.{SFits};
ghost use Rattle.patterns.specs.Replies.{Answer.refused, number_of, answer_of, quantity_answer, page_answer, greatest_answer};
ghost use Rattle.patterns.specs.SignedReplies.{signed_of, page_count, page_length, code_length, code_period};
ghost use Rattle.signed_replies.specs.FoundNumbers.{found_signed};

use patterns::{Found, GreatestPeriod, Page, Refusal, Reply};

// The number of a refusal: minus the number of its cause.
fn refusal(cause: Refusal) -> i64
    ensures { result ≡ signed_of (refused (number_of cause)) }
{
    -i64::from(u8::from(cause))
}

// The number of what was counted, or of a refusal. That it fits is asked here and in the four functions below, since they take any reply; the caller knows how great each can be.
pub fn reply_number(reply: Reply) -> i64
    requires { SFits w64 (signed_of (answer_of reply)) }
    ensures { result ≡ signed_of (answer_of reply) }
{
    match reply {
        Ok(n) => n as i64,
        Err(cause) => refusal(cause),
    }
}

// The same where there may be nothing to count, which has the number `none`.
pub fn found_number(reply: Found, none: i64) -> i64
    requires { SFits w64 (found_signed none reply) }
    ensures { result ≡ found_signed none reply }
{
    match reply {
        Ok(Some(n)) => n as i64,
        Ok(None) => none,
        Err(cause) => refusal(cause),
    }
}

// The number of a quantity of 64 bits, which is never made a `usize`, or of a refusal.
pub fn quantity_number(reply: Result<u64, Refusal>) -> i64
    requires { SFits w64 (signed_of (quantity_answer reply)) }
    ensures { result ≡ signed_of (quantity_answer reply) }
{
    match reply {
        Ok(number) => number as i64,
        Err(cause) => refusal(cause),
    }
}

// The two numbers of a page: how many codes and how many bytes, or a refusal in both.
#[repr(C)]
#[derive(Clone, Copy, Debug, PartialEq, Eq, Hash)]
pub struct PageReply {
    pub codes: i64,
    pub bytes: i64,
}

// The numbers of what the page entry replied.
pub fn page_numbers(reply: Result<Page, Refusal>) -> PageReply
    requires { (SFits w64 (signed_of (page_count (page_answer reply)))) × (SFits w64 (signed_of (page_length (page_answer reply)))) }
    ensures { (result.codes ≡ signed_of (page_count (page_answer reply))) × (result.bytes ≡ signed_of (page_length (page_answer reply))) }
{
    PageReply {
        codes: reply_number(reply.map(|page| page.codes)),
        bytes: reply_number(reply.map(|page| page.bytes)),
    }
}

// The two numbers of a code with the greatest period: how many bytes it has and what its period is, or a refusal in both.
#[repr(C)]
#[derive(Clone, Copy, Debug, PartialEq, Eq, Hash)]
pub struct GreatestReply {
    pub length: i64,
    pub period: i64,
}

// The numbers of what the entry of the greatest period replied.
pub fn greatest_numbers(reply: Result<GreatestPeriod, Refusal>) -> GreatestReply
    requires { (SFits w64 (signed_of (code_length (greatest_answer reply)))) × (SFits w64 (signed_of (code_period (greatest_answer reply)))) }
    ensures { (result.length ≡ signed_of (code_length (greatest_answer reply))) × (result.period ≡ signed_of (code_period (greatest_answer reply))) }
{
    GreatestReply {
        length: reply_number(reply.map(|code| code.length)),
        period: quantity_number(reply.map(|code| code.period)),
    }
}
