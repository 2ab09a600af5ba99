// No code: what the reader leaves of a document that it accepts. The theorems are in proofs/Accepted.antt and proofs/Left.antt.
#![tactic(auto)]
