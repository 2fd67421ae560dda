//! Traces of the appliance, each with what `judge` must say of it. It has tests alone.
#![tactic(auto)]

#[cfg(test)]
mod changes;
#[cfg(test)]
mod packets;
#[cfg(test)]
mod plain;
#[cfg(test)]
mod rows;
