//! An outside in memory, whose clock tells the moments of a case.

ghost use Rattle.std.specs.Prelude.{◌≡◌, [], None, refl};

use crate::message::Moments;
use crate::nobody::FailingDoor;
use pl_base::{
    Bytes, Clock, LAST_MOMENT, List, MemSink, MemSource, Memory, Moment, Paired, Row, Text,
};
use pl_keeper::{Keeper, KeeperFault, MemKeeper};
use pl_listener::{ListenFault, Listener};
use pl_outfit::Outfit;
use std::alloc::Global;

/// A clock that tells moments in turn, and then 0. What it will tell isn't told.
#[derive(Drop)]
pub struct Turns {
    moments: Option<Moments>,
    told: usize,
}

impl Clock for Turns {
    ghost coming = { λ _. None };

    fn now(&mut self) -> Moment {
        let now = moment_at(&self.moments, self.told);
        self.told = self.told.saturating_add(1);
        now.min(LAST_MOMENT)
    }
}

fn moment_at(moments: &Option<Moments>, at: usize) -> Moment {
    match moments {
        Some(moments) => moments.coming.get(at).copied().unwrap_or(0),
        None => 0,
    }
}

/// A source and a sink in memory, the moments of the clock that is asked for first, the rows at any
/// path, for one store, and the store that was handed back. Nobody comes to its door: that fails.
#[derive(Drop)]
pub struct Outside {
    pub ends: Paired<MemSource, MemSink>,
    moments: Option<Moments>,
    rows: Option<List<Row>>,
    pub back: Option<MemKeeper>,
    keeper_faults: u64,
    // How many handles of its door are out.
    handles_out: u8,
    door_faults: u64,
}

/// A store in memory without a row.
fn empty(alloc: Global) -> MemKeeper
    ensures rows { result.rows.items ≡ [] }
    ensures quiet { result.faults ≡ 0 }
{
    MemKeeper::new(List::new(alloc), List::new(alloc))
}

impl Outfit for Outside {
    type In = MemSource;

    type Out = MemSink;

    type Time = Turns;

    type Store = MemKeeper;

    type Door = FailingDoor;

    ghost view = { λ outfit. record {
      ends = outfit.ends;
      coming = None;
      lines = record {
        no_store = λ path failed. [];
        door = λ address. [];
        no_door = λ address failed. [];
      };
      people = None;
      stores = record { asked = None; rows = None; back = None; faults = outfit.keeper_faults };
      doors = record {
        asked = None;
        back = None;
        out = outfit.handles_out;
        faults = outfit.door_faults;
      };
    } };

    ghost with_ends = { λ outfit ends. record outfit { ends = ends } };

    ghost ends_alone = { λ outfit ends. refl };

    fn ends(&mut self) -> &mut Paired<MemSource, MemSink> {
        &mut self.ends
    }

    fn clock(&mut self) -> Turns {
        Turns {
            moments: self.moments.take(),
            told: 0,
        }
    }

    fn keeper(&mut self, alloc: Global, path: Option<&Text>) -> Result<MemKeeper, KeeperFault> {
        match path {
            None => Ok(empty(alloc)),
            Some(_) => match self.rows.take() {
                Some(rows) => Ok(MemKeeper::new(rows, List::new(alloc))),
                None => Err(KeeperFault::Memory),
            },
        }
    }

    fn keeper_back(&mut self, store: MemKeeper) {
        if store.faults() > 0 {
            self.keeper_faults = self.keeper_faults.saturating_add(1);
        }
        self.back = Some(store);
    }

    fn door(&mut self, _alloc: Global, _address: &Text) -> Result<FailingDoor, ListenFault> {
        self.handles_out = 1;
        Ok(FailingDoor::new())
    }

    fn share(&mut self, alloc: Global, door: &mut FailingDoor) -> Result<FailingDoor, ListenFault> {
        let handle = door.share(alloc)?;
        self.handles_out += 1;
        Ok(handle)
    }

    fn door_back(&mut self, door: FailingDoor) {
        self.handles_out -= 1;
        if door.faults() > 0 {
            self.door_faults = self.door_faults.saturating_add(1);
        }
    }

    fn tell(&mut self, _line: &str) {}

    fn keeper_faults(&self) -> u64 {
        self.keeper_faults
    }

    fn door_faults(&self) -> u64 {
        self.door_faults
    }
}

/// An outside that has these bytes to give whole, at these moments, and room for 1,000,000 bytes,
/// with these rows at any path.
pub fn outside_of(
    alloc: Global,
    input: &[u8],
    moments: Moments,
    rows: List<Row>,
) -> Result<Outside, Memory> {
    let never = List::new(alloc);
    let source = MemSource::new(Bytes::from_slice(alloc, input)?, 1_000_000, never);
    let sink = sink(alloc)?;
    Ok(Outside {
        ends: Paired { source, sink },
        moments: Some(moments),
        rows: Some(rows),
        back: None,
        keeper_faults: 0,
        handles_out: 0,
        door_faults: 0,
    })
}

fn sink(alloc: Global) -> Result<MemSink, Memory> {
    let never = List::new(alloc);
    MemSink::new(alloc, 1_000_000, 1_000_000, never)
}
