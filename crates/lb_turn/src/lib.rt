//! A value that several threads act on in turn, without a lock: whoever finds the turn free acts, the
//! others go on. Each participant has a seat, and a seat's receipts are its entries in the one list that
//! all acts make.
#![tactic(auto)]

mod acts;
mod closing;
mod holding;
mod opening;
mod seat;
mod steps;
mod table;
mod turn;

pub use acts::Acts;
pub use seat::{Seat, TurnFault};
pub use steps::{LoadCount, Publish, Release, TryTurn};
pub use table::{Held, History, JoinSeat, Key, LastAct, Role, SplitSeat, TurnRule, View};
pub use turn::{CloseFault, Turn};
