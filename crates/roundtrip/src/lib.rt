// No code: what is written reads back as what it was, and different content has different bytes. The statements are in
// specs/Statement.antt and specs/Entries.antt, the theorems in proofs/Theorems.antt.
#![tactic(auto)]
