// The lines of an answer area's listed errors: line, column, kind, as decimals parted by one space.
#![tactic(auto)]

mod decimals;
pub mod lines;
pub mod starts;
