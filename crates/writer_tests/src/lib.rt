// Tests of the writer at its limits.
#![tactic(auto)]

#[cfg(test)]
mod answers;
#[cfg(test)]
mod example;
#[cfg(test)]
mod limits;
#[cfg(test)]
mod statements;
#[cfg(test)]
mod streams;
