//! The starred examples of document 01, as theorems, are in specs/Starred.antt. This crate has no code.
#![tactic(auto)]
