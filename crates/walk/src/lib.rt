// The walk through the dangers of a sheet under a list of levels (document 01, "The walk and the chain shown").
#![tactic(auto)]

pub mod above;
pub mod four;
pub mod shown;
mod sides;
mod start;
