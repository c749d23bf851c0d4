// The models of a file, in the order of a build: those that statements call, those reached from the root, and the names
// that each declares.
pub mod called;
pub mod reached;
pub mod scope;
