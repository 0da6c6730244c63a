// What holds of every text and its blocks, in each form. Each law is the contract of a function that does nothing.
ghost use Rattle.std.specs.Prelude.{◌≡◌, ◌⊎◌, ◌<◌, ◌≤◌, ℕ, List, [], ◌+◌, ◌++◌, ◌^◌, length, take, All};
ghost use Rattle.block_frame.specs.declared.block.Block.{Block};
ghost use Rattle.block_frame.specs.declared.block.Next.{Next};
ghost use Rattle.block_frame.specs.declared.block.Next.TheVariants.{Bad};
ghost use Rattle.block_frame.specs.declared.form.Form.{Form};
ghost use Rattle.block_frame.specs.Grammar.{IsBlock, IsPartial, IsBad, BeginsWithBlock, spelled, spelled_all, blocks_of, rest_of, longest_block};
ghost use Rattle.block_frame.specs.Frames.{announced};
ghost use Rattle.block_frame.specs.Replies.{IsReply, BeginsWithReply, reply_frame, too_long};
ghost use Rattle.block_frame.specs.State.{BlocksState, IsNext};

use crate::framed::LENGTH_SIZE;
use crate::replies::{MAX_REPLY_TEXT, REPLY_HEAD};

/// Every text is its blocks and a rest, which is a proper prefix of a block or bad.
pub fn texts_are_cut()
    ensures { (form : Form) (text : List ℕ)
        → (text ≡ spelled_all form (blocks_of form text) ++ rest_of form text)
        × All (IsBlock form) (blocks_of form text)
        × (IsPartial form (rest_of form text) ⊎ IsBad form (rest_of form text)) }
{}

/// It is so in one way only, however the text came: no block is a proper prefix of another.
pub fn blocks_are_cut_once()
    ensures { (form : Form) (blocks : List Block) (rest : List ℕ)
        → All (IsBlock form) blocks
        → IsPartial form rest ⊎ IsBad form rest
        → (blocks_of form (spelled_all form blocks ++ rest) ≡ blocks)
        × (rest_of form (spelled_all form blocks ++ rest) ≡ rest) }
{}

/// Blocks that stand at the front of a text are its first ones, and leave its rest as it is.
pub fn blocks_go_first()
    ensures { (form : Form) (blocks : List Block) (text : List ℕ)
        → All (IsBlock form) blocks
        → (blocks_of form (spelled_all form blocks ++ text) ≡ blocks ++ blocks_of form text)
        × (rest_of form (spelled_all form blocks ++ text) ≡ rest_of form text) }
{}

/// A text that begins with a block is no proper prefix of one, and neither is bad.
pub fn kinds_are_apart()
    ensures partial { (form : Form) (text : List ℕ)
        → IsPartial form text → (¬ BeginsWithBlock form text) × (¬ IsBad form text) }
    ensures bad { (form : Form) (text : List ℕ)
        → IsBad form text → (¬ BeginsWithBlock form text) × (¬ IsPartial form text) }
{}

/// Nothing at all is a proper prefix of a block.
pub fn nothing_is_partial()
    ensures { (form : Form) → IsPartial form [] }
{}

/// What is bad stays bad, whatever follows.
pub fn bad_texts_stay()
    ensures { (form : Form) (text more : List ℕ) → IsBad form text → IsBad form (text ++ more) }
{}

/// A block has so many bytes at the most, and its proper prefixes have fewer.
pub fn blocks_are_short()
    ensures whole { (form : Form) (block : Block)
        → IsBlock form block → length (spelled form block) ≤ longest_block }
    ensures partial { (form : Form) (text : List ℕ) → IsPartial form text → length text < longest_block }
{}

/// The frame of a reply is one, with what it was made of, or with the message in place of a text that is too long.
pub fn replies_are_framed()
    ensures fits { (status place : ℕ) (text : List ℕ)
        → status ≤ 1 → place < 2 ^ 64 → length text ≤ MAX_REPLY_TEXT
        → IsReply (reply_frame status place text) status place text }
    ensures over { (status place : ℕ) (text : List ℕ)
        → place < 2 ^ 64 → MAX_REPLY_TEXT < length text
        → IsReply (reply_frame status place text) 1 place too_long }
{}

/// A reply frame ends where its length says, whatever follows it, and has nine bytes behind its length at the least.
pub fn replies_say_their_end()
    ensures end { (bytes text : List ℕ) (status place : ℕ) → BeginsWithReply bytes status place text
        → (REPLY_HEAD ≤ announced bytes) × (LENGTH_SIZE + announced bytes ≤ length bytes)
        × IsReply (take (LENGTH_SIZE + announced bytes) bytes) status place text }
    ensures said { (text more : List ℕ)
        → LENGTH_SIZE ≤ length text → announced (text ++ more) ≡ announced text }
{}

/// The bytes of a frame say one reply at the most.
pub fn replies_are_one()
    ensures { (bytes text text' : List ℕ) (status place status' place' : ℕ)
        → IsReply bytes status place text → IsReply bytes status' place' text'
        → (status ≡ status') × (place ≡ place') × (text ≡ text') }
{}

/// The bytes of blocks are joined as the blocks are.
pub fn spellings_join()
    ensures { (form : Form) (blocks others : List Block)
        → spelled_all form (blocks ++ others) ≡ spelled_all form blocks ++ spelled_all form others }
{}

/// A reader that found a bad block finds it there from then on, whatever it is fed.
pub fn bad_readers_stay()
    ensures { (old read new : BlocksState) (place : ℕ) (piece : List ℕ) (next : Next)
        → IsNext old (Bad place) read
        → IsNext (record read { pending = read.pending ++ piece }) next new
        → (next ≡ Bad place) × (new ≡ record read { pending = read.pending ++ piece }) }
{}
