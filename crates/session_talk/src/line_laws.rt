//! What holds of every text and its lines. Each law is the contract of a function that does nothing.

ghost use Rattle.std.specs.Prelude.{◌≡◌, ◌≢◌, ℕ, List, [], ◌∷◌, ◌++◌};
ghost use Rattle.std.specs.Str.{byte};
ghost use Rattle.session_talk.specs.Lines.{BeginsWithLine, lines_of};

/// The lines of a text that begins with a line are that one and those of what follows.
pub fn lines_are_cut()
    ensures { (text line rest : List ℕ) → BeginsWithLine text line rest → lines_of text ≡ line ∷ lines_of rest }
{}

/// A text that is the beginning of a line, of one byte at least, has that line alone.
pub fn the_last_line_may_lack_its_end()
    ensures { (text line : List ℕ) → text ≢ [] → BeginsWithLine (text ++ byte "\n" ∷ []) line []
        → lines_of text ≡ line ∷ [] }
{}
