// What is promised of the plan that `closure` makes: pages without functions. specs/Promises states it, for every plan that a program
// can hold, and `answers` of proofs/Theorems proves it of every answer. Assumes nothing.

#![tactic(auto)]
