// A link that is to come to a door in memory.
ghost use Rattle.std.specs.Prelude.{◌≡◌};
ghost use Rattle.slurm_net.specs.Unused.{IsUnused};

use slurm_io::MemLink;

/// A link, and beside it the bytes that it has to read.
#[derive(Drop)]
pub(crate) struct Coming {
    pub(crate) left: Vec<u8>,
    pub(crate) link: MemLink,
    pub ghost whole: { left.items ≡ link.left },
    pub ghost unused: { IsUnused link },
}
