// Two recorded runs that show an output to be open, found in a file of records: the watching call.

#![tactic(auto)]

pub mod answer;
pub mod call;
mod file;
mod recent;
mod search;
