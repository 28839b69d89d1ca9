// No functions: the printing program of document 01 as a definition, from all bytes of the input to all bytes of the output, and the
// same for the program that prints every reply. The theorems about what is printed are in proofs/, over the definitions in specs/.

#![tactic(auto)]
