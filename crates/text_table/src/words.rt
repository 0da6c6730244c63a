// Words of a line, as a shell reads and writes them.

use line_words::words::{Words, WordsRefusal, quote_words, split_words, words_of};
use std::alloc::Global;
use table_lines::answer::{Unanswered, refused};
use table_lines::fields::{LONGEST, parts};

fn refused_words(alloc: Global, refusal: WordsRefusal) -> Result<Vec<u8>, Unanswered> {
    match refusal {
        WordsRefusal::Memory => Err(Unanswered::Memory),
        _ => refused(alloc, &refusal),
    }
}

// The words, each in brackets.
fn bracketed(alloc: Global, words: &Words) -> Result<Vec<u8>, Unanswered> {
    let mut out = Vec::new(alloc);
    for place in 0..words.len() {
        out.push(b'[')?;
        out.extend_from_slice(words.get(place).ok_or(Unanswered::Arguments)?)?;
        out.push(b']')?;
    }
    Ok(out)
}

/// The words of a line.
pub fn split(alloc: Global, arguments: &[&[u8]]) -> Result<Vec<u8>, Unanswered> {
    let [line] = *arguments else {
        return Err(Unanswered::Arguments);
    };
    if line.len() > LONGEST {
        return Err(Unanswered::Arguments);
    }
    match split_words(alloc, line) {
        Ok(words) => bracketed(alloc, &words),
        Err(refusal) => refused_words(alloc, refusal),
    }
}

/// The texts, each of which ends with `;`.
pub fn list_of(alloc: Global, list: &[u8]) -> Result<Vec<String>, Unanswered> {
    let mut texts = Vec::new(alloc);
    let list = parts(alloc, list, b';')?;
    let Some((_, ended)) = list.split_last() else {
        return Ok(texts);
    };
    for text in ended {
        let Ok(text) = str::from_utf8(text) else {
            return Err(Unanswered::Arguments);
        };
        texts.push(String::from_str(alloc, text)?)?;
    }
    Ok(texts)
}

/// The line that the words, each ended by `;`, are quoted as.
pub fn quote(alloc: Global, arguments: &[&[u8]]) -> Result<Vec<u8>, Unanswered> {
    let [list] = *arguments else {
        return Err(Unanswered::Arguments);
    };
    let list = list_of(alloc, list)?;
    if list.len() > LONGEST {
        return Err(Unanswered::Arguments);
    }
    match words_of(alloc, list.as_slice()) {
        Ok(words) => Ok(quote_words(alloc, &words)?),
        Err(refusal) => refused_words(alloc, refusal),
    }
}
