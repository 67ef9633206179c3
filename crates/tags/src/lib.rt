// Tag sheets: the file read and checked for a circuit, the first bounds of tagged inputs, the first input that breaks a tag, and which tags bounds show.

#![tactic(auto)]

pub mod answer;
pub mod first;
pub mod sheet;
pub mod shown;
pub mod tag;
pub mod tagged;
