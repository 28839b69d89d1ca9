// No functions: a whole run of a printing program, over the contracts of the functions that it calls, and that what it hands out, one
// piece after the other, is the text of the definition, however the input was cut into pieces. The theorems are in proofs/, over the
// definitions in specs/.

#![tactic(auto)]
