// What is worked by record: its deviation, and its share of its area's UFE. Each is worked once, into the caller's own buffer.
#![tactic(auto)]

pub mod deviations;
pub mod shares;
