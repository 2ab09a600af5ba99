// No code: every refusal and every warning that reading gives, turned with its document, has a message. The theorems are in
// proofs/Whole.antt.
#![tactic(auto)]
