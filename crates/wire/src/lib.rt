// What every layer above shares: the refusal, the cursor, and what an answer is.
#![tactic(auto)]

pub mod cursor;
pub mod refusal;

use crate::refusal::Refusal;

// What a call of the port answers, as in the crate: what it gives, or the refusal.
pub type Result<T> = std::result::Result<T, Refusal>;
