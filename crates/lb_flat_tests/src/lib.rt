//! Worked examples of the flat form: texts, and the commands that they become. It has tests alone.
#![tactic(auto)]

#[cfg(test)]
mod answer;
#[cfg(test)]
mod worked;
