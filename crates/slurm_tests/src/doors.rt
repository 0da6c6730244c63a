// What only values show of doors, hosts and clocks in memory: that they give what they were made with, in order.
ghost use Rattle.std.specs.Prelude.{◌≡◌, None, IfOk};
ghost use Rattle.slurm_net.specs.MemHost.{IsUnusedDoor};
ghost use Rattle.slurm_net.specs.Unused.{IsUnused};

use crate::serving::{CUT, Turn, greet, serve, serve_once};
use slurm_io::{Failed, MemLink};
use slurm_net::{Clock, ListenRefusal, MemClock, MemDoor, MemHost};
use std::alloc::{AllocError, Global};
use std::test::Fail;

// A link with these bytes to read.
fn link_of(alloc: Global, bytes: &[u8], failing: Vec<u64>) -> Result<MemLink, AllocError>
    ensures { IfOk result IsUnused }
{
    let bytes = Vec::from_slice(alloc, bytes)?;
    Ok(MemLink::new(alloc, bytes, 8, failing, Vec::new(alloc)))
}

// A door at which a link comes, then nobody, then a link of which the first read fails; its second call fails.
fn door_of(alloc: Global) -> Result<MemDoor, AllocError>
    ensures { IfOk result IsUnusedDoor }
{
    let first = link_of(alloc, b"ab", Vec::new(alloc))?;
    let second = link_of(alloc, b"c", vec![in alloc; 1]?)?;
    let comes = vec![in alloc; Some(first), None, Some(second)]?;
    MemDoor::new(alloc, comes, vec![in alloc; 2]?)
}

#[test]
fn a_door_gives_says_nobody_and_fails(rt: HostRuntime) -> Result<(), Fail> {
    let mut door = door_of(rt.alloc())?;
    assert_eq!(rt; serve(&mut door), Turn::Served);
    assert_eq!(rt; serve(&mut door), Turn::Failed);
    assert_eq!(rt; serve(&mut door), Turn::Nobody);
    assert_eq!(rt; serve(&mut door), Turn::Served);
    assert_eq!(rt; serve(&mut door), Turn::Nobody);
    assert_eq!(rt; door.faults(), 1);
    let [first, second] = door.sessions() else {
        return Err("there aren't two sessions".into());
    };
    assert_eq!(rt;
        (first.left.as_slice(), first.link.left()),
        (b"ab".as_slice(), b"".as_slice())
    );
    assert_eq!(rt;
        (first.link.taken(), first.link.read_faults()),
        (b"ok".as_slice(), 0)
    );
    assert_eq!(rt;
        (second.left.as_slice(), second.link.read_faults()),
        (b"c".as_slice(), 1)
    );
    assert_eq!(rt; (first.cut, second.cut), (CUT, CUT));
    Ok(())
}

#[test]
fn a_host_gives_its_doors_and_links(rt: HostRuntime) -> Result<(), Fail> {
    let alloc = rt.alloc();
    let doors = vec![in alloc; door_of(alloc)?]?;
    let links = vec![in alloc; link_of(alloc, b"", Vec::new(alloc))?]?;
    let mut host = MemHost::new(alloc, doors, links, vec![in alloc; 1]?);
    assert_eq!(rt; serve_once(&mut host), Err(ListenRefusal::Failed));
    assert_eq!(rt; serve_once(&mut host), Ok(Turn::Served));
    assert_eq!(rt; (greet(&mut host), greet(&mut host)), (Ok(()), Err(Failed)));
    assert_eq!(rt; host.faults(), 2);
    assert_eq!(rt;
        host.last().map(|link| link.taken()),
        Some(b"hi".as_slice())
    );
    assert_eq!(rt;
        host.closed().first().map(|door| door.sessions().len()),
        Some(1)
    );
    Ok(())
}

#[test]
fn a_clock_in_memory_goes_its_course(rt: HostRuntime) {
    let mut clock = MemClock::new(u64::MAX - 9, 7);
    assert_eq!(rt;
        [clock.now(), clock.now(), clock.now()],
        [u64::MAX - 9, u64::MAX - 2, u64::MAX]
    );
    clock.rest();
    assert_eq!(rt; (clock.readings, clock.twin().now()), (3, u64::MAX - 9));
}
