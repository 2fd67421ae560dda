//! Worked examples of the network chip and of the board. It has tests alone.
#![tactic(auto)]

#[cfg(test)]
mod board_rows;
#[cfg(test)]
mod board_script;
#[cfg(test)]
mod chip_rows;
#[cfg(test)]
mod chip_script;
#[cfg(test)]
mod stop;
#[cfg(test)]
mod tests;
