// The operations on v128 values as definitions: the shapes, a vector and its lanes, and what each operation does. The code is `lane`.
#![tactic(auto)]
