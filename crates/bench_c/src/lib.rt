// The parts of the check that the benchmarks time, for programs in other languages: numbers and slices of numbers only.
#![tactic(auto)]

pub mod cycles;
pub mod eval;
pub mod verdict;
