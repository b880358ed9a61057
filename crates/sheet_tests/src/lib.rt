// Worked cases of the geometry and of both sheets.
#![tactic(auto)]

#[cfg(test)]
mod geometry_cases;
#[cfg(test)]
mod mark_cases;
#[cfg(test)]
mod refusal_cases;
