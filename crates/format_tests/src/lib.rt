// Units, frames, numbers, disks and calls against worked examples and exchanges of other programs.
#![tactic(auto)]

#[cfg(test)]
mod calls;
#[cfg(test)]
mod credits;
#[cfg(test)]
mod descriptors;
#[cfg(test)]
mod disk;
#[cfg(test)]
mod frames;
#[cfg(test)]
mod numbers;
#[cfg(test)]
mod outside;
#[cfg(test)]
mod units;
