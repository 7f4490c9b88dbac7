// When operations and jobs conflict (document 01, "Conflicts and splits"): the only code that looks at kinds and objects.
// Operation o of job j, both from 0, stands at 16 * j + o of the table's arrays; where there is none, the kind is 0.
#![tactic(auto)]

pub mod pairs;
pub mod sets;
mod writers;
