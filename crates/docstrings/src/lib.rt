// No code: the docstrings of the tables that the reader leaves are passed over as they are, wherever they stand. The statement is in
// specs/Passable.antt.
#![tactic(auto)]
