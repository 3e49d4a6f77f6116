// No code: document 01's cases W1 to W12 in one table (specs/), and that each promise settles them (proofs/).
#![tactic(auto)]
