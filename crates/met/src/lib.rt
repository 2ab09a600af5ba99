// No code: which tokens and comments reading comes to. The definitions are in specs/Met.antt.
#![tactic(auto)]
