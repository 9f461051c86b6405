// Scripts of a client, its partition and its partner over a plain queue and a plain window: what each call answers, what it
// sends, and what becomes of its logins and its data.
#![tactic(auto)]

#[cfg(test)]
mod calls;
#[cfg(test)]
mod data;
#[cfg(test)]
mod desk;
#[cfg(test)]
mod in_use;
#[cfg(test)]
mod logins;
#[cfg(test)]
mod pages;
#[cfg(test)]
mod queue;
#[cfg(test)]
mod requests;
#[cfg(test)]
mod rows;
#[cfg(test)]
mod seat;
#[cfg(test)]
mod step;
#[cfg(test)]
mod units;
#[cfg(test)]
mod wire;
