// Which jobs may be first (T2) and last (Tm) for a split job and operation, as sets (document 01, "Conflicts and splits").
// Jobs and operations count from 0.
#![tactic(auto)]

pub mod guard;
pub mod meet;
pub mod split;
