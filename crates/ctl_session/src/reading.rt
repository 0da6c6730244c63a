//! The next whole block of a link.

ghost use Rattle.std.specs.Prelude.{◌<◌, length};
ghost use Rattle.ctl_session.specs.Reading.{Brings, IsFound, WritesStay};

use crate::outside::read_some;
use block_frame::{Block, Blocks, Next, blocks_are_short};
use slurm_io::{Failed, Link};

/// What the next block of a link is.
#[derive(Drop)]
pub enum Found {
    Whole(Block),
    /// The input ended, and what is pending is less than a whole block.
    End,
    Bad { place: u64 },
    ReadFault,
    Memory,
}

/// What one read brought.
#[derive(Clone, Copy, Debug, PartialEq, Eq)]
enum Brought {
    Some,
    End,
    ReadFault,
    Memory,
}

fn read_more<L: Link>(link: &mut L, blocks: &mut Blocks, buffer: &mut [u8]) -> Brought
    requires { 0 < length buffer.old }
    ensures brings { Brings (L.wire link.old) (L.wire link.new) blocks.old blocks.new result }
    ensures writes { WritesStay (L.wire link.old) (L.wire link.new) }
{
    match read_some(link, buffer) {
        Err(Failed) => Brought::ReadFault,
        Ok(0) => Brought::End,
        Ok(count) => match blocks.feed(buffer.split_at(count).0) {
            Ok(()) => Brought::Some,
            Err(_) => Brought::Memory,
        },
    }
}

/// Reads until a block is whole. Each turn reads one byte at least, and less than a whole block has 8,192 bytes at
/// most.
pub fn next_whole<L: Link>(link: &mut L, blocks: &mut Blocks, buffer: &mut [u8]) -> Found
    requires { 0 < length buffer.old }
    ensures found { IsFound (L.wire link.old) (L.wire link.new) blocks.old blocks.new result }
    ensures writes { WritesStay (L.wire link.old) (L.wire link.new) }
{
    blocks_are_short();
    loop {
        match blocks.next_block() {
            Err(_) => return Found::Memory,
            Ok(Next::Whole(block)) => return Found::Whole(block),
            Ok(Next::Bad { place }) => return Found::Bad { place },
            Ok(Next::NotYet) => {}
        }
        match read_more(link, blocks, buffer) {
            Brought::Some => {}
            Brought::End => return Found::End,
            Brought::ReadFault => return Found::ReadFault,
            Brought::Memory => return Found::Memory,
        }
    }
}
