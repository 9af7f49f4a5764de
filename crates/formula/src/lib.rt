// Document 01's formulas, record by record and as values: what a record is, its deviation, what it adds to its area, what posting it does to
// the tally and to its member's line, and an amount in cents.
// No file and no buffer is read or written here.
#![tactic(auto)]

pub mod deviation;
pub mod entry;
pub mod posting;
pub mod rounding;
