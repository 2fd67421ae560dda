//! Workers that race over one machine, in threads of their own. It has tests alone.
#![tactic(auto)]

#[cfg(test)]
mod calls;
#[cfg(test)]
mod stop;
#[cfg(test)]
mod tests;
