// Performing the statements that are no calls, on any sheet.
#![tactic(auto)]

// That a sheet stays tied is a clause of its own: a predicate of both clauses would name the meanings and the ties as well.

mod codes;
mod field;
mod marks;
mod modes;
mod moves;
mod plain;
mod stack;
mod text;
pub mod types;
