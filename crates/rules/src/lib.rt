// The rules of a whole strip. Statements only: the check is above.
#![tactic(auto)]
