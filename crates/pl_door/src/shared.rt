use mio::unix::SourceFd;
use mio::{Events, Interest, Poll, Token};
use std::alloc::Global;
use std::io;
use std::net::{Net, Shutdown, SocketAddr, TcpListener, TcpStream};
use std::os::fd::{AsFd, AsRawFd};
use std::sync::atomic::{AtomicBool, Ordering};
use std::time::Duration;

/// What the handles of a door share.
#[derive(Drop)]
pub(crate) struct Shared {
    listener: TcpListener,
    // The listening socket once more: shutting it down ends each `accept` that waits.
    ending: TcpStream,
    closed: AtomicBool,
}

impl Shared {
    pub fn new(listener: TcpListener) -> io::Result<Shared> {
        let ending = TcpStream::from(listener.as_fd().try_clone_to_owned()?);
        Ok(Shared {
            listener,
            ending,
            closed: AtomicBool::new(false),
        })
    }

    /// The address at which it listens.
    pub fn address(&self) -> io::Result<SocketAddr> {
        self.listener.local_addr()
    }

    /// Waits for the next connection, or for the door's end.
    pub fn accept(&self) -> io::Result<TcpStream> {
        let (stream, _) = self.listener.accept()?;
        Ok(stream)
    }

    pub fn is_closed(&self) -> bool {
        self.closed.load(Ordering::SeqCst)
    }

    /// Closes the door: each `accept` that waits ends, and those who come are refused.
    pub fn close(&self) {
        self.closed.store(true, Ordering::SeqCst);
        let _ = self.ending.shutdown(Shutdown::Both);
    }

    /// Whether somebody waits at the door. Where the system doesn't tell, nobody does.
    pub fn someone_waits(&self, net: &impl Net, alloc: Global) -> bool {
        matches!(self.looks(net, alloc), Ok(true))
    }

    fn looks(&self, net: &impl Net, alloc: Global) -> io::Result<bool> {
        let mut poll = Poll::new(net)?;
        let mut events = Events::with_capacity(alloc, 1)?;
        let listening = self.listener.as_raw_fd();
        poll.registry()
            .register(&mut SourceFd(&listening), Token(0), Interest::READABLE)?;
        poll.poll(&mut events, Some(Duration::from_secs(0)))?;
        Ok(!events.is_empty())
    }
}
