// The archive for programs in C and in Rust: each function of `ponds` as an export of its name, with its clauses. Nothing else is here.

#![tactic(auto)]

mod days;
mod files;
mod made;
mod sheets;
