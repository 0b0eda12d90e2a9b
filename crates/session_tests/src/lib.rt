//! Cases of sessions: scripts with their replies, one worker or two in turns, and how a service ends.
#![tactic(auto)]

#[cfg(test)]
mod cases;
#[cfg(test)]
mod depths;
#[cfg(test)]
mod sessions;
