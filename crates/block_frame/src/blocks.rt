// The reader of blocks: bytes are fed to it in pieces, and it hands out the blocks that they make.
ghost use Rattle.std.specs.Prelude.{◌≡◌, ◌==◌, ◌++◌, ◌≤◌, [], length, drop, IfOk, OnOk, OnErr};
ghost use Rattle.block_frame.specs.Grammar.{BeginsWithBlock};
ghost use Rattle.block_frame.specs.Looking.{IsScanned, IsSight, IsFrameSight};
ghost use Rattle.block_frame.specs.State.{BlocksState, IsNext, place_after};
ghost use Rattle.block_frame.specs.declared.form.Form.TheVariants.{Plain, Framed};

use crate::framed::{FrameSight, LENGTH_SIZE, framed_block, look_at_frame};
use crate::looking::{Scan, Sight, look};
use crate::parts::{attached_block, line_block};
use crate::{Block, Form, Next};
use bytes::BytesMut;
use small_texts::memory_error::Memory;
use std::alloc::Global;
use std::marker::Model;

const ROOM: usize = 8193;

/// A reader of blocks, in whatever pieces the bytes come. It searches each byte once, and copies those of whole blocks.
/// Contracts see it as its form, the place up to which it has handed out blocks, and the bytes that are pending.
#[derive(Drop)]
pub struct Blocks {
    alloc: Global,
    form: Form,
    pending: BytesMut,
    scan: Scan,
    place: u64,
}

impl Model for Blocks {
    ghost Value = { BlocksState };

    ghost view = { λ blocks. record {
      form = blocks.form;
      place = blocks.place;
      pending = blocks.pending.items;
    } };

    ghost invariant = { λ blocks. IsScanned blocks.pending.items blocks.scan };
}

impl Blocks {
    /// A reader at the first byte of a stream, with room for a header line.
    pub fn new(alloc: Global, form: Form) -> Result<Blocks, Memory>
        ensures { IfOk result (λ blocks. blocks ≡ record { form = form; place = 0; pending = [] }) }
    {
        Ok(Blocks {
            alloc,
            form,
            pending: BytesMut::with_capacity(alloc, ROOM)?,
            scan: Scan::Header { searched: 0 },
            place: 0,
        })
    }

    /// Takes the next bytes of the stream.
    pub fn feed(&mut self, piece: &[u8]) -> Result<(), Memory>
        ensures ok { OnOk result (self.new ≡ record self.old { pending = self.old.pending ++ piece.now }) }
        ensures err { OnErr result (self.new ≡ self.old) }
    {
        self.pending.extend_from_slice(piece)?;
        Ok(())
    }

    /// What the pending bytes begin with; a whole block is handed out. Memory is taken for a whole block alone.
    pub fn next_block(&mut self) -> Result<Next, Memory>
        ensures ok { IfOk result (λ next. IsNext self.old next self.new) }
        ensures err { OnErr result ((self.new ≡ self.old) × BeginsWithBlock self.old.form self.old.pending) }
    {
        match self.form {
            Form::Plain => self.next_plain(),
            Form::Framed => self.next_framed(),
        }
    }

    // What the pending bytes begin with in the plain form.
    fn next_plain(&mut self) -> Result<Next, Memory>
        requires { self.old.form ≡ Plain }
        ensures ok { IfOk result (λ next. IsNext self.old next self.new) }
        ensures err { OnErr result ((self.new ≡ self.old) × BeginsWithBlock self.old.form self.old.pending) }
    {
        match self.look_on() {
            Sight::NotYet => Ok(Next::NotYet),
            Sight::Bad => Ok(Next::Bad { place: self.place }),
            Sight::Line(line) => {
                let block = line_block(self.alloc, self.pending.as_slice(), line)?;
                self.skip(line + 1);
                Ok(Next::Whole(block))
            }
            Sight::Attached { header, end } => {
                let pending = self.pending.as_slice();
                let block = attached_block(self.alloc, pending, header, end)?;
                self.skip(end + 2);
                Ok(Next::Whole(block))
            }
        }
    }

    // What the pending bytes begin with in the framed form.
    fn next_framed(&mut self) -> Result<Next, Memory>
        requires { self.old.form ≡ Framed }
        ensures ok { IfOk result (λ next. IsNext self.old next self.new) }
        ensures err { OnErr result ((self.new ≡ self.old) × BeginsWithBlock self.old.form self.old.pending) }
    {
        match look_at_frame(self.pending.as_slice()) {
            FrameSight::NotYet => Ok(Next::NotYet),
            FrameSight::Bad => Ok(Next::Bad { place: self.place }),
            FrameSight::Whole(len) => {
                let block = framed_block(self.alloc, self.pending.as_slice(), len)?;
                self.skip(LENGTH_SIZE + len);
                Ok(Next::Whole(block))
            }
        }
    }

    // Looks at the bytes that came since the last look, in the plain form.
    fn look_on(&mut self) -> Sight
        ensures sight { IsSight self.old.pending result }
        ensures stays { self.new ≡ self.old }
    {
        let (scan, sight) = look(self.pending.as_slice(), self.scan);
        self.scan = scan;
        sight
    }

    // Lets go of the bytes of a block.
    fn skip(&mut self, count: usize)
        requires { count ≤ length self.old.pending }
        ensures { self.new ≡ record self.old {
          place = place_after self.old.place count;
          pending = drop count self.old.pending;
        } }
    {
        self.pending.advance(count);
        self.scan = Scan::Header { searched: 0 };
        self.place = self.place.saturating_add(count as u64);
    }

    /// Whether no byte is pending.
    pub fn is_empty(&self) -> bool
        ensures { result ≡ (length self.now.pending == 0) }
    {
        self.pending.is_empty()
    }

    /// How many bytes the blocks took that were handed out, up to the greatest `u64`.
    pub fn place(&self) -> u64
        ensures { result ≡ self.now.place }
    {
        self.place
    }
}
