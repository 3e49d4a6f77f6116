// The limits: what a reader or writer is willing to take.
#![tactic(auto)]

pub mod configuration;
pub mod limit;
