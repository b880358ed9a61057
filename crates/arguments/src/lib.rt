// The arguments of statements, read from their bytes.
// (Each reader states value, parts and stands, and no record of the three: what is read and from which bytes differs at each, and would be its arguments.)
#![tactic(auto)]

pub mod count;
pub mod pair;
pub mod plain;
pub mod text;
