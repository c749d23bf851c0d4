// Flattening: in place of a submodel statement its model's own statements, with replacements. In the order of a build:
// laid, statements, replacements.
pub mod laid;
pub mod replacements;
pub mod statements;
