// A reader of a drawing stream, on any sheet.
#![tactic(auto)]

pub mod answers;
mod define;
mod obey;
pub mod reader;
mod settle;
mod state;
mod waiting;
