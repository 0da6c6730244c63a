//! A text in the making, word by word.

ghost use Rattle.std.specs.Prelude.{◌≡◌, ◌∷◌, [], ◌++◌, map, OnOk};
ghost use Rattle.std.specs.Str.{byte};
ghost use Rattle.line_words.specs.Words.{quoted};
ghost use Rattle.state_save.specs.Texts.{joined};

use crate::lists::push_list;
use crate::quoting::push_quoted;
use crate::word::Word;
use small_texts::memory_error::Memory;
use small_texts::pieces::push_text;
use std::alloc::Global;
use std::marker::Model;

/// Lines of words in the making. A contract sees the text so far.
#[derive(Drop)]
pub struct Writer {
    text: Vec<u8>,
    // A word, before it is quoted.
    word: Vec<u8>,
}

impl Model for Writer {
    ghost use Rattle.std.specs.Prelude.{List, ℕ};

    ghost Value = { List ℕ };

    ghost view = { λ writer. writer.text.items };
}

impl Writer {
    ghost use Rattle.std.specs.Prelude.{◌≡◌, ◌∷◌, [], ◌++◌, map, OnOk};
    ghost use Rattle.std.specs.Str.{byte};
    ghost use Rattle.line_words.specs.Words.{quoted};
    ghost use Rattle.state_save.specs.Texts.{joined};

    /// No lines.
    pub fn new(alloc: Global) -> Writer
        ensures { result ≡ [] }
    {
        Writer {
            text: Vec::new(alloc),
            word: Vec::new(alloc),
        }
    }

    /// The text so far.
    pub fn as_text(&self) -> &[u8]
        ensures { result.now ≡ self.now }
    {
        self.text.as_slice()
    }

    /// The text. It takes no memory.
    pub fn into_text(self) -> Vec<u8>
        ensures { result.items ≡ self }
    {
        self.text
    }

    /// Writes a whole line, with its end.
    pub fn push_line_text(&mut self, text: &[u8]) -> Result<(), Memory>
        ensures { OnOk result (self.new ≡ self.old ++ text.now) }
    {
        push_text(&mut self.text, text)
    }

    /// Begins a line with the word of its kind.
    pub fn begin_line(&mut self, kind: &[u8]) -> Result<(), Memory>
        ensures { OnOk result (self.new ≡ self.old ++ quoted kind.now) }
    {
        push_quoted(&mut self.text, kind)
    }

    /// Writes one more word: a key, which may be empty, and a value.
    pub fn push_value<T: Word>(&mut self, key: &[u8], value: &T) -> Result<(), Memory>
        ensures { OnOk result (self.new ≡ self.old ++ byte " " ∷ quoted (key.now ++ T.text value.now)) }
    {
        self.word.clear();
        push_text(&mut self.word, key)?;
        value.push_word(&mut self.word)?;
        self.text.push(b' ')?;
        push_quoted(&mut self.text, self.word.as_slice())
    }

    /// Writes one more word: a key, which may be empty, and a list of values with a mark between two of them.
    pub fn push_values<T: Word>(&mut self, key: &[u8], values: &[T], mark: u8) -> Result<(), Memory>
        ensures { OnOk result (self.new
            ≡ self.old ++ byte " " ∷ quoted (key.now ++ joined mark (map T.text values.now))) }
    {
        self.word.clear();
        push_text(&mut self.word, key)?;
        push_list(&mut self.word, values, mark)?;
        self.text.push(b' ')?;
        push_quoted(&mut self.text, self.word.as_slice())
    }

    /// Ends a line.
    pub fn end_line(&mut self) -> Result<(), Memory>
        ensures { OnOk result (self.new ≡ self.old ++ byte "\n" ∷ []) }
    {
        self.text.push(b'\n')?;
        Ok(())
    }
}
