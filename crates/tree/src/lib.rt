// No code: the definition of "a value stands here", over bytes and a tree, for any encoding, and the laws about it.
// Read specs/ in the order of its Lib.
#![tactic(auto)]
