// Scripts of a server unit and its client over plain queues and windows: what is answered, moved and kept, what closes a
// session, and what was seen to go wrong in other servers.
#![tactic(auto)]

#[cfg(test)]
mod causes;
#[cfg(test)]
mod defects;
#[cfg(test)]
mod leavings;
#[cfg(test)]
mod line;
#[cfg(test)]
mod memory;
#[cfg(test)]
mod queues;
#[cfg(test)]
mod rig;
#[cfg(test)]
mod rows;
#[cfg(test)]
mod step;
#[cfg(test)]
mod transfers;
#[cfg(test)]
mod units;
#[cfg(test)]
mod windows;
