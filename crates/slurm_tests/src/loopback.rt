// What no clause says of the system's clock and its loopback network: that a dialled link reaches a door.
use crate::serving::{Turn, serve, serve_soon};
use slurm_io::{Source, write_all};
use slurm_net::{Clock, Host, SystemClock, TcpDoor, TcpHost};
use std::io;
use std::net::OpenListener;
use std::test::Fail;

// The port that the system chose.
pub(crate) fn port_of<L: OpenListener, R>(door: &TcpDoor<L, R>) -> io::Result<u16> {
    Ok(door.listener.local_addr()?.port())
}

#[test]
fn a_dialled_link_reaches_a_door(rt: HostRuntime) -> Result<(), Fail> {
    let mut host = TcpHost::new(rt.alloc(), &rt);
    let Ok(mut doors) = host.listen(0, 2) else {
        return Err("no doors were opened".into());
    };
    let port = port_of(&doors[0])?;
    assert_eq!(rt; serve(&mut doors[0]), Turn::Nobody);
    let Ok(mut link) = host.dial(port) else {
        return Err("nothing was dialled".into());
    };
    assert_eq!(rt; write_all(&mut link, b"ab"), Ok(()));
    assert_eq!(rt;
        serve_soon(&mut doors[1], &mut SystemClock::new(&rt)),
        Turn::Served
    );
    let mut into = [b'?'; 4];
    assert_eq!(rt; link.read(&mut into), Ok(2));
    assert_eq!(rt; (into, link.read(&mut [0])), (*b"ok??", Ok(0)));
    host.hang_up(link);
    host.close_doors(doors);
    assert_eq!(rt; (host.faults, host.link_reads, host.link_writes), (0, 0, 0));
    assert!(rt; host.dial(port).is_err());
    assert_eq!(rt; host.faults, 1);
    Ok(())
}

#[test]
fn a_clock_tells_the_time_and_rests(rt: HostRuntime) {
    let mut clock = SystemClock::new(&rt);
    let now = clock.now();
    clock.rest();
    let later = clock.twin().now();
    assert!(rt; now > 1_700_000_000 && later > now && later - now < 60);
}
