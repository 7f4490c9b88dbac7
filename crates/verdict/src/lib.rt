// Whether a sheet is robust against levels, and its lowest levels, over the sets of a read table
// (document 01, "Conflicts and splits" and "Lowest levels and the number asked"). Jobs count from 0.
#![tactic(auto)]

pub mod judge;
pub mod lowest;
