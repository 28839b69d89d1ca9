// The promise of the sheet: demand 3 of the desk, as theorems on the rules that the contracts of `plan` and `board` cite.
// Nothing here runs.

#![tactic(auto)]
