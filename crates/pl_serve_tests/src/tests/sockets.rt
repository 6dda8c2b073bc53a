ghost use Rattle.pl_serve.specs.Below.pl_hall.specs.Seats.{IsFree};
ghost use Rattle.pl_serve.specs.History.{AreIn};

use crate::tests::four::{STOP, TEXT, in_four, opened};
use pl_base::MemClock;
use pl_door::TcpDoor;
use pl_keeper::MemKeeper;
use pl_listener::Listener;
use pl_serve::{Ended, Four, Hall, Outside, Service, serve};
use pl_turn::Seat;
use pl_worker::End;
use std::alloc::Global;
use std::io;
use std::io::{Read, Write};
use std::net::{Net, SocketAddr, TcpListener, TcpStream};
use std::sync::Wait;
use std::test::Fail;
use std::thread::{Threads, join};
use std::time::Duration;

const NOBODYS: &[u8] = b"GET /runs/1 HTTP/1.1\r\nAuthorization: Bearer x\r\n\r\n";

/// The replies to a text, to a message with nobody's token, and to a shutdown.
const REPLIES: &[u8] = b"HTTP/1.1 201 Created\r\nContent-Type: application/json\r\n\
    Content-Length: 9\r\n\r\n{\"run\":1}\
    HTTP/1.1 401 Unauthorized\r\nContent-Type: application/json\r\n\
    Content-Length: 24\r\n\r\n{\"rule\":\"token.unknown\"}\
    HTTP/1.1 200 OK\r\nContent-Type: application/json\r\n\
    Content-Length: 2\r\n\r\n{}";

/// Sends three messages, the second of them in two pieces, behind four who say nothing, and reads
/// what comes until the link is closed.
fn talk<N: Net<Listener = TcpListener, Stream = TcpStream>>(
    net: &N,
    alloc: Global,
    at: SocketAddr,
) -> io::Result<Vec<u8>> {
    let _one = TcpStream::connect(net, at)?;
    let _two = TcpStream::connect(net, at)?;
    let _three = TcpStream::connect(net, at)?;
    let _four = TcpStream::connect(net, at)?;
    let mut link = TcpStream::connect(net, at)?;
    link.set_read_timeout(Some(Duration::from_secs(30)))?;
    link.write_all(TEXT)?;
    let (front, back) = NOBODYS.split_at(20);
    link.write_all(front)?;
    link.write_all(back)?;
    link.write_all(STOP)?;
    let mut replies = Vec::new(alloc);
    link.read_to_end(&mut replies)?;
    Ok(replies)
}

/// Serves, while another thread talks to the service.
fn serve_beside<
    R: Threads + Wait + Sync + Net<Listener = TcpListener, Stream = TcpStream>,
    L: Listener + Drop + Send,
>(
    rt: &R,
    alloc: Global,
    hall: Hall<MemKeeper>,
    seat: Seat<Service<MemKeeper>>,
    outsides: Four<Outside<L, MemClock>>,
    at: SocketAddr,
) -> (io::Result<Vec<u8>>, Ended<MemKeeper, L, MemClock>)
    requires free { IsFree hall.lock seat }
    requires none_out { AreIn L.tells outsides }
{
    join(
        rt,
        move || talk(rt, alloc, at),
        move || -> Ended<MemKeeper, L, MemClock>
            requires free { IsFree hall.lock seat }
            requires none_out { AreIn L.tells outsides }
        { serve(rt, alloc, hall, seat, outsides) },
    )
}

// A real door, behind which four workers serve. That the service ends is part of the test.
#[test]
fn a_real_door_is_served(rt: HostRuntime) -> Result<(), Fail> {
    let alloc = rt.alloc();
    let (hall, seat) = opened(alloc)?;
    let door = TcpDoor::open(rt, alloc, "127.0.0.1:0")?;
    let at = door.address()?;
    let outsides = in_four(alloc, door)?;
    let (replies, ended) = serve_beside(&rt, alloc, hall, seat, outsides, at);
    assert_eq!(rt; replies?.as_slice(), REPLIES);
    assert!(rt; ended.reasons.end() == Some(End::Stopped));
    Ok(())
}
