// The skip: passes one value of any type, whole, or refuses with the number and place of the first fault.
#![tactic(auto)]

pub mod till_depth;
