// The statements of a stream: their codes, what follows each, and what each part must keep.
#![tactic(auto)]

pub mod codes;
pub mod coordinate;
pub mod header;
pub mod layout;
pub mod letters;
pub mod limits;
pub mod number;
pub mod part;
pub mod standing;
pub mod stating;
pub mod stop;
pub mod tail_law;
pub mod types;
