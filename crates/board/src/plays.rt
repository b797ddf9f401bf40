// The rule of the table, and the names of its steps.
ghost use Rattle.std.specs.Prelude.{ℕ, List, []};
ghost use Rattle.board.specs.Rule.{IsOrdered};
ghost use Rattle.board.specs.Plays.{founder, blank, kept_part, given_part, both, Tried, Waited, Raised, Gave, Learned};

use crate::core_box::CoreBox;
use crate::view::View;
use atomic_table::{Join, Play, Split, TableRule};
use core_machine::Core;
use stage_steps::Stage;
use std::marker::{Brand, PhantomData};
use std::snapshot::Snapshot;

/// What the slot holds: a core, and how often it was given back; nothing only while a board is being closed.
pub type Slot<S> = Option<(CoreBox<S>, u64)>;

/// What the rule's first view is made from.
pub type About<S> = Snapshot<Core<S>>;

/// The board's rule.
pub struct Order;

impl<S: Stage> TableRule<Slot<S>, View, About<S>> for Order {
    ghost holds = { λ _. IsOrdered };

    ghost first = { λ about. founder about.value };
}

/// How many tries a split gives away. Each call picks it.
pub trait Amount {
    ghost tries: { ℕ };
}

impl Amount for Brand {
    ghost tries = { 0 };
}

/// A view is cut in two.
pub struct Cut<A: Amount>(PhantomData<A>);

impl<A: Amount> Split<View> for Cut<A> {
    ghost left = { kept_part A.tries };

    ghost right = { given_part A.tries };
}

/// Two views become one.
pub struct Merge;

impl Join<View> for Merge {
    ghost both = { both };

    ghost spent = { blank };
}

/// The load after two views became one.
pub struct Learn;

impl<S: Stage> Play<Slot<S>, View> for Learn {
    ghost then = { Learned };
}

/// The one try for the slot of a call that doesn't wait.
pub struct Try;

impl<S: Stage> Play<Slot<S>, View> for Try {
    ghost then = { Tried };
}

/// A try for the slot of a call that waits.
pub struct Await;

impl<S: Stage> Play<Slot<S>, View> for Await {
    ghost then = { Waited };
}

/// The places that come home and that are lost in a step of the holder. Each call picks them.
pub trait Brings {
    ghost home: { List ℕ };

    ghost lost: { List ℕ };
}

impl Brings for Brand {
    ghost home = { [] };

    ghost lost = { [] };
}

/// The holder raises the length word by the entries that it made.
pub struct Raise<B: Brings>(PhantomData<B>);

impl<B: Brings, S: Stage> Play<Slot<S>, View> for Raise<B> {
    ghost then = { Raised B.home B.lost };
}

/// The holder gives the slot back.
pub struct Give<B: Brings>(PhantomData<B>);

impl<B: Brings, S: Stage> Play<Slot<S>, View> for Give<B> {
    ghost then = { Gave B.home B.lost };
}
