//! What holds of every call. Each law is the contract of a function that does nothing.

ghost use Rattle.std.specs.Prelude.{◌≡◌, ℕ, List, Option, Some};
ghost use Rattle.block_frame.specs.Grammar.{IsPlainBlock};
ghost use Rattle.block_frame.specs.declared.block.Block.{Block};
ghost use Rattle.session_text.specs.Blocks.{block_at};

/// Each block that a call stands for is one of the plain form.
pub fn blocks_of_calls_are_plain()
    ensures { (moment : ℕ) (user : List ℕ) (words : List (List ℕ)) (script : Option (List ℕ)) (block : Block)
        → block_at moment user words script ≡ Some block → IsPlainBlock block }
{}
