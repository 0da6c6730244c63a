//! Laws on the words of a line.

ghost use Rattle.worked_rows.specs.Sentences;

/// The words of a line are what one meant by writing them, piece by piece ("Quoting" in sh(1)), and nothing stays open.
pub fn a_sentence_says_what_its_words_mean()
    ensures words { Sentences.WordsAreMeant }
    ensures closed { Sentences.NothingStaysOpen }
{}

/// There are no other lines: each in which nothing stays open was written so.
pub fn each_closed_line_is_a_sentence()
    ensures { Sentences.EachClosedLine }
{}
