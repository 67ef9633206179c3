// Circuit files: the readers of terms, forms and constraints, the check of a whole file, the type of one that isn't refused, and where its constraints
// stand. The refusals of all calls. Runs: forms evaluated on one, its values and what it satisfies.

#![tactic(auto)]

pub mod bytes;
pub mod file;
pub mod form;
pub mod offsets;
pub mod reader;
pub mod refusal;
pub mod run;
pub mod runs;
