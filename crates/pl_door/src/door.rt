ghost use Rattle.std.specs.Prelude.{◌≡◌, false, IfOk, IfSome};
ghost use Rattle.pl_door.specs.Telling.{handle_of, HasJustCome};

use crate::connection::Tcp;
use crate::shared::Shared;
use pl_listener::{ListenFault, Listener};
use std::alloc::Global;
use std::io::ErrorKind;
use std::net::{Net, SocketAddr, TcpListener, TcpStream};
use std::sync::Arc;
use std::{io, rt};

/// A handle of a door that listens at an address. It tells none of the links that it gave.
#[derive(Drop)]
pub struct TcpDoor<T> {
    runtime: T,
    shared: Arc<Shared, Global>,
    accepted: u64,
    faults: u64,
    closed: bool,
    found_closed: bool,
    out: bool,
}

impl<T: Net<Listener = TcpListener, Stream = TcpStream> + Copy> TcpDoor<T> {
    /// A door at an address, as `127.0.0.1:8080` or `[::1]:8080`; at port 0 the system picks one.
    /// It listens when this returns. An error where it can't: the port is in use, the address isn't
    /// this machine's, or it is none.
    pub fn open(runtime: T, alloc: Global, address: &str) -> io::Result<TcpDoor<T>>
        ensures { IfOk result (λ door. handle_of door.out door.accepted door.closed
            door.found_closed door.faults ≡ handle_of false 0 false false 0) }
    {
        let shared = Shared::new(TcpListener::bind(&runtime, address)?)?;
        Ok(TcpDoor {
            runtime,
            shared: Arc::new(alloc, shared)?,
            accepted: 0,
            faults: 0,
            closed: false,
            found_closed: false,
            out: false,
        })
    }

    /// The address at which it listens.
    pub fn address(&self) -> io::Result<SocketAddr> {
        self.shared.address()
    }
}

impl<T: rt::Clock + Copy> TcpDoor<T> {
    // Waits for the next connection that is there when it is given; or for the door's end.
    fn next(&self, alloc: Global) -> Result<Option<Tcp<T>>, ListenFault>
        ensures { IfOk result (λ came. IfSome came HasJustCome) }
    {
        for _ in 0..u64::MAX {
            if self.shared.is_closed() {
                return Ok(None);
            }
            match self.shared.accept() {
                Ok(stream) => {
                    let door = Arc::try_clone(&self.shared)?;
                    if let Ok(link) = Tcp::new(self.runtime, alloc, stream, door) {
                        return Ok(Some(link));
                    }
                }
                Err(fault) if is_gone(&fault) || self.shared.is_closed() => {}
                Err(_) => break,
            }
        }
        Err(ListenFault::Failed)
    }
}

// Whether the next connection is to be waited for: this one was gone before it was given, or a
// signal came. The network's faults of a connection come here too.
fn is_gone(fault: &io::Error) -> bool {
    matches!(
        fault.kind(),
        ErrorKind::ConnectionAborted
            | ErrorKind::ConnectionReset
            | ErrorKind::Interrupted
            | ErrorKind::WouldBlock
            | ErrorKind::TimedOut
            | ErrorKind::HostUnreachable
            | ErrorKind::NetworkUnreachable
            | ErrorKind::NetworkDown
    )
}

impl<T: rt::Clock + Net + Copy + Send> Listener for TcpDoor<T> {
    type Link = Tcp<T>;

    ghost tells = { λ door. handle_of door.out door.accepted door.closed door.found_closed
        door.faults };

    fn accept(&mut self, alloc: Global) -> Result<Option<Tcp<T>>, ListenFault> {
        let came = if self.closed || self.found_closed {
            Ok(None)
        } else {
            self.next(alloc)
        };
        match came {
            Ok(Some(link)) => {
                self.accepted = self.accepted.saturating_add(1);
                self.out = true;
                Ok(Some(link))
            }
            Ok(None) => {
                self.found_closed = true;
                Ok(None)
            }
            Err(ListenFault::Failed) => {
                self.faults = self.faults.saturating_add(1);
                Err(ListenFault::Failed)
            }
            Err(ListenFault::Memory) => Err(ListenFault::Memory),
        }
    }

    fn share(&mut self, _alloc: Global) -> Result<Self, ListenFault> {
        Ok(TcpDoor {
            runtime: self.runtime,
            shared: Arc::try_clone(&self.shared)?,
            accepted: 0,
            faults: 0,
            closed: self.closed,
            found_closed: self.found_closed,
            out: false,
        })
    }

    fn close(&mut self) {
        self.shared.close();
        self.closed = true;
    }

    fn link_back(&mut self, link: Tcp<T>) {
        link.end();
        self.out = false;
    }

    fn faults(&self) -> u64 {
        self.faults
    }
}
