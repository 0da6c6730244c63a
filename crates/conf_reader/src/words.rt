//! Words of a line, which blanks and tabs separate; a comment ends the line.

ghost use Rattle.std.specs.Prelude.{◌≡◌, ◌≤◌, ◌<◌, ◌∷◌, [], length, drop, IfSome, MatchOption, false, not};
ghost use Rattle.std.specs.List.{prefix_len};
ghost use Rattle.conf_reader.specs.LineWords.{is_blank, marked, quoted_behind, words_in, isnt_end};

/// The first word of a line and what follows it; None where nothing but blanks and a comment is left.
#[tactic(auto, using(crate::proofs::WordLemmas::no_word, crate::proofs::WordLemmas::first_cut))]
pub fn first_word(line: &[u8]) -> Option<(&[u8], &[u8])>
    ensures cut { MatchOption result (words_in line.now ≡ [])
        (λ word. words_in line.now ≡ word.0.now ∷ words_in word.1.now) }
    ensures size { IfSome result (λ word. (length word.0.now ≤ length line.now)
        × (length word.1.now < length line.now)) }
{
    let rest = after_blanks(line);
    let len = word_len(rest);
    if len == 0 {
        None
    } else {
        Some(rest.split_at(len))
    }
}

fn is_blank(b: u8) -> bool
    ensures { result ≡ is_blank b }
{
    matches!(b, b' ' | b'\t')
}

// What stands behind the blanks that begin the line.
fn after_blanks(line: &[u8]) -> &[u8]
    ensures value { result.now ≡ drop (prefix_len is_blank line.now) line.now }
{
    line.split_at(count_blanks(line)).1
}

fn count_blanks(line: &[u8]) -> usize
    ensures value { result ≡ prefix_len is_blank line.now }
    ensures size { result ≤ length line.now }
{
    line.iter().take_while(|b| is_blank(**b)).count()
}

// How many bytes stand before the first gap or comment.
fn word_len(line: &[u8]) -> usize
    ensures value { result ≡ prefix_len isnt_end (marked false line.now) }
    ensures size { result ≤ length line.now }
{
    let mut quoted = false;
    for (place, b) in line.iter().enumerate() {
        if ends_word(quoted, *b) {
            return place;
        }
        quoted = quoted_behind(quoted, *b);
    }
    line.len()
}

fn ends_word(quoted: bool, b: u8) -> bool
    ensures { isnt_end (record { byte = b; quoted = quoted }) ≡ not result }
{
    !quoted && (is_blank(b) || b == b'#')
}

fn quoted_behind(quoted: bool, b: u8) -> bool
    ensures { result ≡ quoted_behind quoted b }
{
    if b == b'"' { !quoted } else { quoted }
}
