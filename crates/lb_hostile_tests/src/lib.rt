//! Lies, cuts and faults: a core whose board answers what a seed decides; images and texts that are cut or have a bit
//! flipped; ports that stop at each byte, and logs that end at each entry. It has tests alone.
#![tactic(auto)]

#[cfg(test)]
mod answer;
#[cfg(test)]
mod beside;
#[cfg(test)]
mod bytes;
#[cfg(test)]
mod calls;
#[cfg(test)]
mod faults;
#[cfg(test)]
mod kept;
#[cfg(test)]
mod logs;
#[cfg(test)]
mod lying;
#[cfg(test)]
mod pieces;
#[cfg(test)]
mod ports;
#[cfg(test)]
mod rows;
#[cfg(test)]
mod runs;
