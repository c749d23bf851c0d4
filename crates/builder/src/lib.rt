// The continuous builder: from a tree file and a root name to an answer area. A build goes through build, answer,
// names, models, extent, flattening, variables, allocation, errors; `source`, `root` and `numbers` are what they
// share.
#![tactic(auto)]

pub mod allocation;
pub mod answer;
pub mod build;
pub mod errors;
pub mod extent;
pub mod flattening;
pub mod models;
pub mod names;
pub mod numbers;
pub mod refusal;
pub mod root;
pub mod source;
pub mod variables;
