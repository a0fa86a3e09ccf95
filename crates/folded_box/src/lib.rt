//! The box of the finished bytes against the folded points of the Type 1 run is in specs/FoldedBox.antt. This crate has no code.
#![tactic(auto)]
