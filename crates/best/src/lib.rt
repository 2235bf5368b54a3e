// The best of a list of candidates: definitions and laws alone. This crate has no function.
#![tactic(auto)]
