//! Machines that fire kinds one by one, are refused, copied and replayed. It has tests alone.
#![tactic(auto)]

#[cfg(test)]
mod alike;
#[cfg(test)]
mod calls;
#[cfg(test)]
mod causes;
#[cfg(test)]
mod jobs;
#[cfg(test)]
mod lines;
#[cfg(test)]
mod steps;
#[cfg(test)]
mod stop;
#[cfg(test)]
mod tests;
