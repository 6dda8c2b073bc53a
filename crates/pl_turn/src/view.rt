ghost use Rattle.std.specs.Prelude.{ℕ};

use crate::standing::Standing;
use atomic_table::{Join, Play, Split, TableRule};
use std::collections::LinkedList;
use std::snapshot::Snapshot;

/// How far a seat is on its way to a turn: it has no ticket, it waits with one, or it has the turn.
pub enum Stage {
    Idle,
    Waiting(u64),
    Turn(u64),
}

/// What a seat knows. Proofs alone speak of it: no value of this type is made.
pub struct View<E, L> {
    /// The label of the lock's value. A seat that was joined away has none.
    pub label: Option<L>,
    /// What the seat has seen of the one history.
    pub seen: LinkedList<E>,
    /// What a seat that was joined into this one had seen.
    pub told: LinkedList<E>,
    /// The entries of this seat's number.
    pub mine: LinkedList<E>,
    /// The seat's number. Before it is drawn, the number of the seat from which this one was split.
    pub number: u64,
    /// Whether the seat has drawn its number.
    pub drawn: bool,
    /// The numbers of the seats that were joined into this one, each with its entries.
    pub joined: LinkedList<(u64, LinkedList<E>)>,
    /// Where the seat is on its way to a turn.
    pub stage: Stage,
    /// How many turns the seat has had.
    pub turns: u64,
    /// How many faults were counted in its turns.
    pub faults: u64,
    /// The count of the value that it took last.
    pub taken: u64,
}

/// The rule that all steps keep: there is one history.
pub struct Turns;

impl<T: Standing> TableRule<Option<T>, View<T::Entry, T::Label>, Snapshot<T>> for Turns {
    ghost use Rattle.pl_turn.specs.Rule.{OneHistory, founder};

    ghost holds = { λ about. OneHistory T.history T.label T.names (T.label about.value) };

    ghost first = { λ about. founder (T.label about.value) };
}

/// The ticket word is raised by one.
pub(crate) struct DrawTicket;

impl<T: Standing> Play<Option<T>, View<T::Entry, T::Label>> for DrawTicket {
    ghost use Rattle.pl_turn.specs.Steps.{DrewTicket};

    ghost then = { DrewTicket };
}

/// The serving word is compared with the seat's ticket.
pub(crate) struct AwaitTurn;

impl<T: Standing> Play<Option<T>, View<T::Entry, T::Label>> for AwaitTurn {
    ghost use Rattle.pl_turn.specs.Steps.{AwaitedTurn};

    ghost then = { AwaitedTurn T.history T.label T.names T.counted };
}

/// The serving word is raised by the seat that has the turn, whose value goes back into the slot.
pub(crate) struct EndTurn;

impl<T: Standing> Play<Option<T>, View<T::Entry, T::Label>> for EndTurn {
    ghost use Rattle.pl_turn.specs.Steps.{EndedTurn};

    ghost then = { EndedTurn T.history T.names T.counted };
}

/// The seats word is raised by one.
pub(crate) struct DrawNumber;

impl<T: Standing> Play<Option<T>, View<T::Entry, T::Label>> for DrawNumber {
    ghost use Rattle.pl_turn.specs.Steps.{DrewNumber};

    ghost then = { DrewNumber };
}

/// A look that makes what was seen the longer of it and what was told.
pub(crate) struct Learn;

impl<T: Standing> Play<Option<T>, View<T::Entry, T::Label>> for Learn {
    ghost use Rattle.pl_turn.specs.Steps.{Learned};

    ghost then = { Learned };
}

/// A new seat has seen what the old one has.
pub(crate) struct Apart;

impl<E, L> Split<View<E, L>> for Apart {
    ghost use Rattle.pl_turn.specs.Steps.{newcomer};

    ghost left = { λ v. v };

    ghost right = { newcomer };
}

/// A seat is told what another has seen, and the other is joined away.
pub(crate) struct Together;

impl<E, L> Join<View<E, L>> for Together {
    ghost use Rattle.pl_turn.specs.Steps.{told_of, joined_away};

    ghost both = { told_of };

    ghost spent = { joined_away };
}
