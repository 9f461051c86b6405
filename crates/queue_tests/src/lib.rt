// Scenarios of queues, and of links of two queues: on their plain and shared forms, and by two threads.
#![tactic(auto)]

#[cfg(test)]
mod queues;
#[cfg(test)]
mod session;
