// No code: the client's demands, sentence by sentence, as one record of statements (specs/Demands), which
// proofs/Demands gives.
#![tactic(auto)]
