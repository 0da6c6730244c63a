// What no clause says of doors over real connections: a client that sends nothing holds nobody up, whoever took it in, and
// of a frame that is cut off the link gives what came.
ghost use Rattle.std.specs.Prelude.{◌≡◌, None};

use crate::loopback::port_of;
use crate::serving::{CUT, Turn, serve};
use slurm_io::{Failed, Sink, Source, write_all};
use slurm_net::{Accepted, Door, Host, TcpHost};
use std::test::Fail;

// What a client asks, and whether it is answered.
fn is_answered<L: Source + Sink>(link: &mut L) -> bool {
    let mut into = [b'?'; 4];
    link.read(&mut into) == Ok(2) && into == *b"ok??"
}

// Reads from the next connection as often as six times: how many bytes came, and whether a read failed.
fn drain<D: Door>(door: &mut D) -> Option<(usize, bool)>
    requires { D.out door.old ≡ None }
    ensures { D.out door.new ≡ None }
{
    let Ok(Accepted::Came(mut link)) = door.accept() else {
        return None;
    };
    let drained = count(&mut link);
    door.done(link, CUT);
    Some(drained)
}

fn count<L: Source>(link: &mut L) -> (usize, bool) {
    let mut came = 0usize;
    for _ in 0..6 {
        match link.read(&mut [0; 4]) {
            Ok(count) => came = came.saturating_add(count),
            Err(Failed) => return (came, true),
        }
    }
    (came, false)
}

#[test]
fn a_silent_client_holds_nobody_up(rt: HostRuntime) -> Result<(), Fail> {
    let mut host = TcpHost::new(rt.alloc(), &rt);
    let Ok(mut doors) = host.listen(0, 2) else {
        return Err("no doors were opened".into());
    };
    let port = port_of(&doors[0])?;
    let Ok(mut silent) = host.dial(port) else {
        return Err("nothing was dialled".into());
    };
    assert_eq!(rt; serve(&mut doors[0]), Turn::Nobody);
    let Ok(mut busy) = host.dial(port) else {
        return Err("nothing was dialled again".into());
    };
    assert_eq!(rt; write_all(&mut busy, b"ab"), Ok(()));
    assert_eq!(rt;
        (serve(&mut doors[1]), is_answered(&mut busy)),
        (Turn::Served, true)
    );
    assert_eq!(rt; write_all(&mut silent, b"cd"), Ok(()));
    assert_eq!(rt;
        (serve(&mut doors[1]), is_answered(&mut silent)),
        (Turn::Served, true)
    );
    host.hang_up(silent);
    host.hang_up(busy);
    host.close_doors(doors);
    assert_eq!(rt; (host.faults, host.link_reads, host.link_writes), (0, 0, 0));
    Ok(())
}

#[test]
fn a_frame_that_is_cut_off_ends(rt: HostRuntime) -> Result<(), Fail> {
    let mut host = TcpHost::new(rt.alloc(), &rt);
    let Ok(mut doors) = host.listen(0, 1) else {
        return Err("no doors were opened".into());
    };
    let port = port_of(&doors[0])?;
    let Ok(mut link) = host.dial(port) else {
        return Err("nothing was dialled".into());
    };
    assert_eq!(rt; write_all(&mut link, b"\0\0\0\x08squ"), Ok(()));
    host.hang_up(link);
    assert_eq!(rt; drain(&mut doors[0]), Some((7, false)));
    host.close_doors(doors);
    Ok(())
}
