// The solver call: the table of rows, the three phases, and the whole.

#![tactic(auto)]

pub mod answer;
mod bounds;
pub mod call;
mod keys;
mod links;
mod marking;
mod marks;
mod nonzeros;
mod search;
mod table;
