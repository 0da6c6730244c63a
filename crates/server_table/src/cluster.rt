// A book of a small cluster, before any request.

ghost use Rattle.std.specs.Prelude.{◌≡◌, [], IfSome};

use cluster_opening::open_named;
use ctl_desk::book::Book;
use plain_data::files::FileNames;
use slurm_io::MemShelf;
use std::alloc::{AllocError, Global};

/// The file slurm.conf(5).
const CONF: &[u8] = b"ClusterName=c\nSlurmdTimeout=0\nDefMemPerCPU=1000\n\
    NodeName=n1 CPUs=4 RealMemory=4000\nPartitionName=main Nodes=ALL Default=YES\n";

/// The association file.
const ASSOCS: &[u8] = b"Cluster - 'c'\nParent - 'root'\nAccount - 'acct'\nParent - 'acct'\n\
    User - 'alice'\nUser - 'bob'\n";

// A shelf with the two files.
fn shelf_of(alloc: Global) -> Result<MemShelf, AllocError> {
    let conf = (
        String::from_str(alloc, "slurm.conf")?,
        Vec::from_slice(alloc, CONF)?,
    );
    let assocs = (
        String::from_str(alloc, "site.assoc")?,
        Vec::from_slice(alloc, ASSOCS)?,
    );
    Ok(MemShelf::new(vec![in alloc; conf, assocs]?, Vec::new(alloc)))
}

/// A book without entries.
pub fn new_book(alloc: Global) -> Option<Book>
    ensures { IfSome result (λ book. book.entries ≡ []) }
{
    let mut shelf = shelf_of(alloc).ok()?;
    let names = FileNames {
        conf: "slurm.conf",
        assocs: "site.assoc",
        state: None,
    };
    match open_named(alloc, &names, &mut shelf) {
        Ok(desk) => Some(desk.into_book()),
        Err(_) => None,
    }
}
