// No code: the binary encoding, as the tree wants an encoding, and that it meets the tree's laws. Read specs/ in the
// order of its Lib.
#![tactic(auto)]
