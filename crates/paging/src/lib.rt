// A page of codes [document 02, paper 2]: the codes that follow a system in memory, measured or written one after another.
#![tactic(auto)]

mod bytes;
mod length;

pub use bytes::write_page;
pub use length::page_length;
