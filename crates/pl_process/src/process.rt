ghost use Rattle.std.specs.Prelude.{◌≡◌, [], None, false, refl};

use crate::store::ProcessStore;
use crate::streams::{Reading, SystemClock, Writing};
use pl_base::{Paired, Text};
use pl_door::TcpDoor;
use pl_keeper::{Keeper, KeeperFault};
use pl_listener::{ListenFault, Listener};
use pl_outfit::Outfit;
use pl_store::ProgramStore;
use std::alloc::Global;
use std::io::{self, ErrorKind, Write};

/// What people are told where a store's log wasn't copied into its file.
const UNCLOSED: &[u8] =
    b"pipectl: the store wasn't closed; its rows stand in the file and its log\n";

/// The streams, the clock and the files of the process, and the network.
#[derive(Drop)]
pub struct Process<R, W, E> {
    runtime: HostRuntime,
    ends: Paired<Reading<R>, Writing<W>>,
    people: E,
    keeper_faults: u64,
    door_faults: u64,
    // How many handles of a door are out.
    handles_out: u8,
}

impl<R, W, E> Process<R, W, E> {
    /// A process with these streams, of which people read the last. No end was told and no fault
    /// counted yet.
    pub fn new(runtime: HostRuntime, reader: R, writer: W, people: E) -> Process<R, W, E>
        ensures unended { result.ends.source.ended ≡ false }
        ensures read_faults { result.ends.source.faults ≡ 0 }
        ensures write_faults { result.ends.sink.faults ≡ 0 }
        ensures keeper_faults { result.keeper_faults ≡ 0 }
        ensures door_faults { result.door_faults ≡ 0 }
    {
        let source = Reading {
            reader,
            ended: false,
            faults: 0,
        };
        let sink = Writing { writer, faults: 0 };
        Process {
            runtime,
            ends: Paired { source, sink },
            people,
            keeper_faults: 0,
            door_faults: 0,
            handles_out: 0,
        }
    }
}

impl<R: io::Read, W: io::Write, E: io::Write> Outfit for Process<R, W, E> {
    type In = Reading<R>;

    type Out = Writing<W>;

    type Time = SystemClock<HostRuntime>;

    type Store = ProcessStore;

    type Door = TcpDoor<HostRuntime>;

    ghost view = { λ process. record {
      ends = process.ends;
      coming = None;
      lines = record {
        no_store = λ path failed. [];
        door = λ address. [];
        no_door = λ address failed. [];
      };
      people = None;
      stores = record { asked = None; rows = None; back = None; faults = process.keeper_faults };
      doors = record {
        asked = None;
        back = None;
        out = process.handles_out;
        faults = process.door_faults;
      };
    } };

    ghost with_ends = { λ process ends. record process { ends = ends } };

    ghost ends_alone = { λ process ends. refl };

    fn ends(&mut self) -> &mut Paired<Reading<R>, Writing<W>> {
        &mut self.ends
    }

    fn clock(&mut self) -> SystemClock<HostRuntime> {
        SystemClock {
            runtime: self.runtime,
        }
    }

    fn keeper(&mut self, alloc: Global, path: Option<&Text>) -> Result<ProcessStore, KeeperFault> {
        let Some(path) = path else {
            let store = ProgramStore::in_memory(alloc);
            return Ok(ProcessStore { store });
        };
        match ProgramStore::open(&self.runtime, path.as_str()) {
            Ok(store) => Ok(ProcessStore { store }),
            Err(refusal) => {
                let path = path.as_str();
                let _ = writeln!(self.people, "pipectl: {path:?}: {refusal}");
                let fault = refusal.fault();
                if fault == KeeperFault::Failed {
                    self.keeper_faults = self.keeper_faults.saturating_add(1);
                }
                Err(fault)
            }
        }
    }

    fn keeper_back(&mut self, store: ProcessStore) {
        if store.faults() > 0 {
            self.keeper_faults = self.keeper_faults.saturating_add(1);
        }
        if store.close().is_err() {
            let _ = self.people.write_all(UNCLOSED);
        }
    }

    #[tactic(auto, using(crate::proofs::Fresh::is_new))]
    fn door(&mut self, alloc: Global, address: &Text) -> Result<TcpDoor<HostRuntime>, ListenFault> {
        let address = address.as_str();
        match TcpDoor::open(self.runtime, alloc, address) {
            Ok(door) => {
                let _ = match door.address() {
                    Ok(at) => writeln!(self.people, "listening on {at}"),
                    Err(_) => writeln!(self.people, "listening on {address}"),
                };
                self.handles_out = 1;
                Ok(door)
            }
            Err(fault) => {
                let _ = writeln!(self.people, "pipectl: {address:?}: {fault}");
                if fault.kind() == ErrorKind::OutOfMemory {
                    return Err(ListenFault::Memory);
                }
                self.door_faults = self.door_faults.saturating_add(1);
                Err(ListenFault::Failed)
            }
        }
    }

    fn share(
        &mut self,
        alloc: Global,
        door: &mut TcpDoor<HostRuntime>,
    ) -> Result<TcpDoor<HostRuntime>, ListenFault> {
        let handle = door.share(alloc)?;
        self.handles_out += 1;
        Ok(handle)
    }

    fn door_back(&mut self, door: TcpDoor<HostRuntime>) {
        self.handles_out -= 1;
        if door.faults() > 0 {
            self.door_faults = self.door_faults.saturating_add(1);
        }
    }

    fn tell(&mut self, line: &str) {
        let _ = self.people.write_all(line.as_bytes());
    }

    fn keeper_faults(&self) -> u64 {
        self.keeper_faults
    }

    fn door_faults(&self) -> u64 {
        self.door_faults
    }
}
