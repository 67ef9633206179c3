// The renewal call: a stored derivation without its idle steps.

#![tactic(auto)]

pub mod answer;
pub mod call;
mod copy;
