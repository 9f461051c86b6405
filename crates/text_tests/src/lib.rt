// Boot texts and traces: what they say, how they are written, and each way to be wrong.
#![tactic(auto)]

#[cfg(test)]
mod plans;
#[cfg(test)]
mod traces;
