// The standard's machine over a whole strip, and what demand 3 says of it. Statements only.
#![tactic(auto)]
