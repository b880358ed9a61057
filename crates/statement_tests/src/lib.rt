// Tests of the reading of statements.
#![tactic(auto)]

#[cfg(test)]
mod counts;
#[cfg(test)]
mod fronts;
#[cfg(test)]
mod refusals;
#[cfg(test)]
mod samples;
