// Lines and their statements, worked out by hand.
#![tactic(auto)]

#[cfg(test)]
mod lines;
#[cfg(test)]
mod reading;
#[cfg(test)]
mod unread;
