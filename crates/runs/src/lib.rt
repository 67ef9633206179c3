// Every run of a small circuit, one after the other in rising order: the first-run and the next-run call.

#![tactic(auto)]

pub mod answer;
pub mod call;
mod candidates;
mod evaluate;
mod levels;
mod search;
