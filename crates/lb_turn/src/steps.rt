// What each step on a word tells the seat that makes it.
use crate::acts::Acts;
use crate::table::{Held, View};
use atomic_table::Play;

/// The turn is tried: compare and exchange of word 0, from 0 to the seat's number plus 1. Where it was
/// free the value is taken.
pub struct TryTurn;

impl<M: Acts> Play<Option<Held<M, M::Why>>, View<M::Fixed, M::Why>> for TryTurn {
    ghost use Rattle.lb_turn.specs.Steps.{tried};

    ghost then = { tried M.entries M.fixed };
}

/// The count is published after the act: store of word 1, the value being taken.
pub struct Publish;

impl<M: Acts> Play<Option<Held<M, M::Why>>, View<M::Fixed, M::Why>> for Publish {
    ghost use Rattle.lb_turn.specs.Steps.{published};

    ghost then = { published M.entries M.fixed };
}

/// The turn is released after the publication: store of 0 in word 0. The value is given back.
pub struct Release;

impl<M: Acts> Play<Option<Held<M, M::Why>>, View<M::Fixed, M::Why>> for Release {
    ghost use Rattle.lb_turn.specs.Steps.{released};

    ghost then = { released };
}

/// The count is loaded: load of word 1.
pub struct LoadCount;

impl<M: Acts> Play<Option<Held<M, M::Why>>, View<M::Fixed, M::Why>> for LoadCount {
    ghost use Rattle.lb_turn.specs.Steps.{loaded};

    ghost then = { loaded };
}
