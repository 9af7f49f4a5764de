// What each program prints, as bytes in the caller's slice: of every byte string, and whole or not at all.
#![tactic(auto)]

pub mod explanation;
pub mod statement;
pub mod ten_minutes;
pub mod written;
