// Exact arithmetic: signed integers, fractions. Every contract is in plain ℤ and ℕ, so that no later proof meets the bits.
#![tactic(auto)]

pub mod fractions;
pub mod lent;
pub mod listed;
pub mod signed;
