// The answer area: the numbers of its layout, where its sections begin, its records by number, the list of its errors,
// and how it is handed out.
#![tactic(auto)]

pub mod errors;
pub mod header;
pub mod layout;
pub mod lent;
pub mod records;
pub mod sections;
