// Guests of shared windows: what they hold, what they are refused, and copies between two windows; and the tables of
// entries below them.
#![tactic(auto)]

#[cfg(test)]
mod closing;
#[cfg(test)]
mod entries;
#[cfg(test)]
mod guests;
#[cfg(test)]
mod holding;
#[cfg(test)]
mod meeting;
#[cfg(test)]
mod owning;
#[cfg(test)]
mod rows;
#[cfg(test)]
mod serving;
#[cfg(test)]
mod threads;
