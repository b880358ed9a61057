// Every refusal number, by a job or, where no job can show it, by the call that does.
#![tactic(auto)]

#[cfg(test)]
mod jobs;
#[cfg(test)]
mod limits;
#[cfg(test)]
mod lines;
#[cfg(test)]
mod reader_calls;
