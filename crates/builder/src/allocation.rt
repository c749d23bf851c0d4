// Allocation: what each statement is to whom. In the order of a build: roles, statements, pairing, fates, held.
#![tactic(auto, unfolding(area::specs::Sections::stmts_at, area::specs::Sections::vars_at, area::specs::Sections::deps_at))]

pub mod fates;
pub mod held;
pub mod pairing;
pub mod roles;
pub mod statements;
