// No functions: what the theorems of `promise` say of two plans, the haul of document 01 and two trucks in a chain, and the haul's worst
// finishing minute, computed. In a crate of their own, since long computations are dear and no proof stands on them.

#![tactic(auto)]
