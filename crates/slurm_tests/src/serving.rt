// Servers and clients as small as can be, over any door, host and clock.
ghost use Rattle.std.specs.Prelude.{◌≡◌, None};

use slurm_io::{Failed, Source, write_all};
use slurm_net::{Accepted, Clock, Cut, Door, Host, ListenRefusal};

/// What a door is told of each link.
pub(crate) const CUT: Cut = Cut {
    before: 3,
    after: 5,
    answered: 2,
    readings: 2,
};

/// What became of a look for a connection.
#[derive(Clone, Copy, Debug, PartialEq, Eq)]
pub(crate) enum Turn {
    Served,
    Nobody,
    Failed,
}

/// Looks for a connection, reads from it once, answers `ok` and hands it back.
pub(crate) fn serve<D: Door>(door: &mut D) -> Turn
    requires { D.out door.old ≡ None }
    ensures { D.out door.new ≡ None }
{
    match door.accept() {
        Ok(Accepted::Came(link)) => {
            let mut link = link;
            let _read = link.read(&mut [0; 4]);
            let _written = write_all(&mut link, b"ok");
            door.done(link, CUT);
            Turn::Served
        }
        Ok(Accepted::Nobody) => Turn::Nobody,
        Err(Failed) => Turn::Failed,
    }
}

/// Looks for a connection as often as ten times, and rests after each time that there is none.
pub(crate) fn serve_soon<D: Door, C: Clock>(door: &mut D, clock: &mut C) -> Turn
    requires { D.out door.old ≡ None }
    ensures { D.out door.new ≡ None }
{
    for _ in 0..10 {
        let turn = serve(door);
        if turn != Turn::Nobody {
            return turn;
        }
        clock.rest();
    }
    Turn::Nobody
}

/// Opens a door, looks for a connection there once and closes it.
pub(crate) fn serve_once<H: Host>(host: &mut H) -> Result<Turn, ListenRefusal> {
    let mut doors = host.listen(6817, 1)?;
    let turn = serve(&mut doors[0]);
    host.close_doors(doors);
    Ok(turn)
}

/// Dials, writes `hi` and hangs up.
pub(crate) fn greet<H: Host>(host: &mut H) -> Result<(), Failed> {
    let mut link = host.dial(6817)?;
    let written = write_all(&mut link, b"hi");
    host.hang_up(link);
    written
}
