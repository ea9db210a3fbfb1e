// The whole check: the reports of each module in order, as lines, counted first and then written.
#![tactic(auto)]

pub mod check;
mod emit;
mod groups;
mod loops;
