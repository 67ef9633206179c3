// The derivation call: the steps read and taken, the marks written, and the whole; and a writer of derivations.

#![tactic(auto)]

pub mod answer;
pub mod call;
pub mod file;
pub mod kinds;
pub mod marks;
pub mod sheets;
pub mod step;
pub mod walk;
pub mod writer;
