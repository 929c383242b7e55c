// The public entries of the marking engine. None relies on its caller: whatever tables, bytes and buffers come in, the reply and the content of every lent
// buffer are those of the definitions [crates/patterns/specs/Entry.antt].
#![tactic(auto)]

pub use arithmetic_entries::{product, sum};
pub use census_entries::{census, census_columns, cycle_columns, height};
pub use code_entries::{accept, first};
pub use coding_entry::code_of_map;
pub use counting_entry::table_count;
pub use decoding_entry::map_of_code;
pub use digraph6_entries::{code_of_digraph6, digraph6_of_code};
pub use greatest_period_entry::greatest_period;
pub use isomorphism_entry::isomorphism;
pub use page_entry::page;
pub use patterns::{Census, Found, GreatestPeriod, Page, Refusal, Reply, Row};
pub use period_entry::period;
pub use predecessor_entry::predecessor;
pub use successor_entry::successor;
