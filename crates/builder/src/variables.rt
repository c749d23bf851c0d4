// The root's variables and their records in the area. In the order of a build: laid, roster, records, bounds, reaching.
pub mod bounds;
pub mod laid;
pub mod reaching;
pub mod records;
pub mod roster;
