// Tests of descriptions, from their text to the page.
#![tactic(auto)]

#[cfg(test)]
mod failures;
#[cfg(test)]
mod streams;
