// Document 02, §2: what a raised limit of ordinary records leaves as it was. Files that were read with the lower limit read and are written
// as before, and a reader with the lower limit refuses a larger file. Theorems on the rules of `plan`; no function is here.

#![tactic(auto)]
