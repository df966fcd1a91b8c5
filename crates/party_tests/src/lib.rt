//! Tests of the machine of one party, and of its queues: two parties run by hand, frame by frame against another program.
#![tactic(auto)]

#[cfg(test)]
mod given;
#[cfg(test)]
mod plans;
#[cfg(test)]
mod queues;
#[cfg(test)]
mod reading;
#[cfg(test)]
mod running;
