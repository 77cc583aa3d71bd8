use crate::{SystemClock, UnixHub, random_seed};
use plane_io::Text;
use plane_outside::{Clock, Hub, HubEvent};
use std::alloc::Global;
use std::fs;
use std::io::{Read, Write};
use std::os::unix::net::UnixStream;
use std::process::Abort;
use std::test::Fail;

/// The user or the group of the clients of a hub.
fn text(rt: &impl Abort, alloc: Global, name: &str) -> Text {
    Text::from_bytes(alloc, name.as_bytes())
        .ok()
        .expect(rt, "memory")
}

/// What an event says, as words.
fn words(event: &HubEvent) -> (&[u8], &[u8]) {
    match event {
        HubEvent::Accepted { user, group, .. } => (user.as_bytes(), group.as_bytes()),
        HubEvent::Bytes { bytes, .. } => (b"bytes", bytes.as_bytes()),
        HubEvent::Closed { .. } => (b"closed", b""),
        HubEvent::Idle => (b"", b""),
    }
}

/// The next event says this.
fn hears(rt: &impl Abort, hub: &mut UnixHub, first: &[u8], second: &[u8]) {
    let event = hub.next().ok().expect(rt, "an event");
    assert_eq!(rt; words(&event), (first, second));
}

#[test]
fn a_peer_is_served(rt: HostRuntime) {
    let _ = fs::remove_file(&rt, "hub.sock");
    let user = text(&rt, rt.alloc(), "root");
    let group = text(&rt, rt.alloc(), "adm");
    let bound = UnixHub::bind(&rt, rt.alloc(), "hub.sock", user, group);
    let mut hub = bound.ok().expect(&rt, "a hub");
    hears(&rt, &mut hub, b"", b"");
    let mut peer = UnixStream::connect(&rt, "hub.sock")
        .ok()
        .expect(&rt, "a peer");
    hears(&rt, &mut hub, b"root", b"adm");
    hears(&rt, &mut hub, b"", b"");
    assert!(rt; peer.write_all(b"abc").is_ok());
    hears(&rt, &mut hub, b"bytes", b"abc");
    assert_eq!(rt; hub.send(1, b"xy"), Ok(()));
    assert_eq!(rt; hub.send(9, b"dropped"), Ok(()));
    let mut back = [0u8; 2];
    assert!(rt; peer.read_exact(&mut back).is_ok());
    assert_eq!(rt; back, [b'x', b'y']);
    drop(peer);
    hears(&rt, &mut hub, b"closed", b"");
    hears(&rt, &mut hub, b"", b"");
    let _ = fs::remove_file(&rt, "hub.sock");
}

#[test]
fn a_peer_that_closed_is_no_fault(rt: HostRuntime) {
    let _ = fs::remove_file(&rt, "gone.sock");
    let user = text(&rt, rt.alloc(), "root");
    let group = text(&rt, rt.alloc(), "adm");
    let bound = UnixHub::bind(&rt, rt.alloc(), "gone.sock", user, group);
    let mut hub = bound.ok().expect(&rt, "a hub");
    let peer = UnixStream::connect(&rt, "gone.sock")
        .ok()
        .expect(&rt, "a peer");
    hears(&rt, &mut hub, b"root", b"adm");
    drop(peer);
    assert_eq!(rt; hub.send(1, b"dropped"), Ok(()));
    hears(&rt, &mut hub, b"closed", b"");
    hears(&rt, &mut hub, b"", b"");
    let _ = fs::remove_file(&rt, "gone.sock");
}

#[test]
fn a_peer_that_takes_nothing_has_closed(rt: HostRuntime) {
    let _ = fs::remove_file(&rt, "slow.sock");
    let user = text(&rt, rt.alloc(), "root");
    let group = text(&rt, rt.alloc(), "adm");
    let bound = UnixHub::bind(&rt, rt.alloc(), "slow.sock", user, group);
    let mut hub = bound.ok().expect(&rt, "a hub");
    let _peer = UnixStream::connect(&rt, "slow.sock")
        .ok()
        .expect(&rt, "a peer");
    hears(&rt, &mut hub, b"root", b"adm");
    let bytes = vec![in rt.alloc(); 7u8; 4_000_000]
        .ok()
        .expect(&rt, "memory");
    assert_eq!(rt; hub.send(1, &bytes), Ok(()));
    hears(&rt, &mut hub, b"closed", b"");
    let _ = fs::remove_file(&rt, "slow.sock");
}

#[test]
fn the_clock_of_the_system_goes(rt: HostRuntime) {
    let mut clock = SystemClock::new(&rt);
    let first = clock.now();
    assert!(rt; first > 1_700_000_000);
    assert!(rt; first <= clock.now());
}

#[test]
fn seeds_differ(rt: HostRuntime) -> Result<(), Fail> {
    let first = random_seed(&rt)?;
    let second = random_seed(&rt)?;
    assert_ne!(rt; first, second);
    Ok(())
}
