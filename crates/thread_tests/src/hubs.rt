//! Which connection a worker may keep between two requests, over real connections of this machine.

use client_hub::{Hub, Look, Parked, Stance, Taken, Task, Waiting};
use sockets::{Room, WAITS, clock_of};
use std::alloc::Global;
use std::io::Write;
use std::net::{Net, TcpListener, TcpStream};
use std::sync::Wait;
use std::test::Fail;
use std::thread::join;
use std::time::{Clock, Duration};
use std::{io, thread};

const ASK: &[u8] = b"GET / HTTP/1.1\r\nHost: v.example\r\n\r\n";

/// How many turns in a row make a connection one that asks alone.
const TURNS: u64 = 16;

// sends a request
fn ask(stream: &TcpStream) -> io::Result<()> {
    let mut to = stream;
    to.write_all(ASK)
}

// the next connection with a request
fn next_given<W: Wait + Clock>(rt: &W, alloc: Global, hub: &Hub, room: &mut Room) -> Option<Taken> {
    for _ in 0..1_000 {
        let look = match hub.next_task(rt) {
            Task::Accept => hub.accept(rt, alloc, room),
            Task::Read(parked) => hub.read(rt, alloc, parked, room),
        };
        if let Look::Given(taken) = look {
            return Some(taken);
        }
    }
    None
}

// gives a connection back, whose request is answered
fn give_back<W: Wait + Clock>(rt: &W, alloc: Global, hub: &Hub, taken: Taken, room: &mut Room) {
    room.clear();
    let parked = Parked {
        stream: taken.stream,
        ip: taken.ip,
        waiting: Waiting::Head,
        got: Vec::new(alloc),
        since: 0,
        born: 0,
        token: taken.token,
    };
    hub.park_again(rt, alloc, parked, room);
}

// how it stands for the connection once it is not crowded, within two seconds; then a further client comes
fn later_stance<N: Net<Stream = TcpStream> + Wait + Clock>(
    net: &N,
    hub: &Hub,
    token: u64,
) -> io::Result<(Stance, TcpStream)> {
    let mut stance = hub.stance(net, token);
    for _ in 0..2_000 {
        if stance != Stance::Crowded {
            break;
        }
        thread::sleep(net, Duration::from_millis(1));
        stance = hub.stance(net, token);
    }
    let further = TcpStream::connect(net, hub.local_addr()?)?;
    Ok((stance, further))
}

#[test]
fn a_connection_that_asks_alone_is_kept(rt: HostRuntime) -> Result<(), Fail> {
    let alloc = rt.alloc();
    let hub = Hub::new(&rt, alloc, TcpListener::bind(&rt, "127.0.0.1:0")?, WAITS)?;
    let mut room = Room::new(alloc)?;
    let client = TcpStream::connect(&rt, hub.local_addr()?)?;
    ask(&client)?;
    let mut taken = next_given(&rt, alloc, &hub, &mut room).ok_or("none came")?;
    let token = taken.token;
    assert_eq!(rt; hub.stance(&rt, token), Stance::Unattended);
    let _idle = TcpStream::connect(&rt, hub.local_addr()?)?;
    for _ in 0..TURNS {
        give_back(&rt, alloc, &hub, taken, &mut room);
        ask(&client)?;
        taken = next_given(&rt, alloc, &hub, &mut room).ok_or("none came back")?;
        assert_eq!(rt; taken.token, token);
        assert_eq!(rt; hub.stance(&rt, token), Stance::Crowded);
    }
    let (told, task) = join(
        &rt,
        || later_stance(&rt, &hub, token),
        || hub.next_task(&rt),
    );
    assert_eq!(rt; told?.0, Stance::Attended);
    assert!(rt; matches!(task, Task::Accept));
    Ok(())
}

#[test]
fn whoever_waits_longest_is_given_up_where_no_worker_is_left(rt: HostRuntime) -> Result<(), Fail> {
    let alloc = rt.alloc();
    let hub = Hub::new(&rt, alloc, TcpListener::bind(&rt, "127.0.0.1:0")?, WAITS)?;
    let since = clock_of(&rt).saturating_sub(2_000);
    let number = hub.begin_wait(&rt, since);
    // nobody asks
    assert!(rt; !hub.gives_up(&rt, since));
    let _client = TcpStream::connect(&rt, hub.local_addr()?)?;
    thread::sleep(&rt, Duration::from_millis(30));
    // somebody asks, and nobody took anything meanwhile
    assert!(rt; hub.gives_up(&rt, since));
    // another one waits longer
    assert!(rt; !hub.gives_up(&rt, since.saturating_add(500)));
    // an origin has three seconds
    assert!(rt; hub.admits(&rt, 7));
    assert!(rt; !hub.gives_origin_up(&rt, 7, since));
    assert!(rt; hub.gives_origin_up(&rt, 7, since.saturating_sub(2_000)));
    // it is doubted until it answers
    assert!(rt; !hub.admits(&rt, 7));
    assert!(rt; hub.admits(&rt, 8));
    hub.note_answer(&rt, 7, true);
    assert!(rt; hub.admits(&rt, 7));
    hub.end_wait(&rt, number);
    // a worker took it
    assert!(rt; matches!(hub.next_task(&rt), Task::Accept));
    assert!(rt; !hub.gives_up(&rt, since));
    Ok(())
}
