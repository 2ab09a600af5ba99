// No code: a tree that was written is read back as itself. The statements are in specs/Statement.antt and specs/Entries.antt, the theorems
// in proofs/Theorems.antt.
#![tactic(auto)]
