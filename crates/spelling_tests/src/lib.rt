// Spellings and stories worked out by hand.
#![tactic(auto)]

#[cfg(test)]
mod spellings;
#[cfg(test)]
mod stories;
