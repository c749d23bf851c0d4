// Whether an answer area keeps its layout, whoever wrote it: document 01's sentence on an area's layout, section by
// section in the order of the area.
#![tactic(auto)]

pub mod errors;
pub mod kept;
pub mod sections;
pub mod stmts;
pub mod variables;
pub mod zeros;
