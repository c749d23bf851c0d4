// How big an answer is: `measure` asks for the counts of instances, flattened statements and nodes, each against its
// most.
pub mod counts;
pub mod measure;
