// No functions: what is kept is what the whole plan gives, at the fresh board and after every event that is taken. The theorems are in
// proofs/, over the definitions in specs/.

#![tactic(auto)]
