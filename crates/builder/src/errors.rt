// The errors of an answer, in the order of the Rust: `all` lists those of the models (builder, check), of the roles,
// and of the conditions.
#![tactic(auto, unfolding(area::specs::Sections::stmts_at, area::specs::Sections::vars_at, area::specs::Sections::deps_at))]

pub mod all;
pub mod builder;
pub mod check;
pub mod checked;
pub mod conditions;
