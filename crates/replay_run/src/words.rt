//! What the words of slurm_replay want.

use small_texts::digits::parse_number;
use std::fmt;
use trace_text::{TakenNames, TraceKind};

/// What is told of the words behind an error in them.
pub const USAGE: &str =
    "usage: slurm_replay -f CONF -a ASSOC [--swf] [--interval SECONDS] [--add-users] [--csv] [--compare-conf CONF] [--compare-assoc ASSOC] [--most JOBS] [--svg FILE] [--compare-svg FILE] TRACE";

/// How many jobs a comparison lists that wait less, and that wait more, where the words don't say.
const USUAL_MOST: u64 = 10;

/// What is wanted (own).
#[derive(Clone, Copy)]
pub struct Wanted<'a> {
    pub conf: &'a str,
    pub assocs: &'a str,
    pub trace: &'a str,
    pub kind: TraceKind,
    /// The most seconds between two passes, where they are given.
    pub interval: Option<u64>,
    pub taken: TakenNames,
    /// Whether users and accounts of the trace are made that the association file lacks.
    pub add_users: bool,
    /// Whether a line for each job is wanted, and no summary.
    pub csv: bool,
    /// Another slurm.conf(5) with which the trace is worked again.
    pub other_conf: Option<&'a str>,
    /// Another association file with which it is.
    pub other_assocs: Option<&'a str>,
    /// How many jobs a comparison lists that wait less, and that wait more.
    pub most: usize,
    /// Where the picture of the replay goes, if one is wanted.
    pub svg: Option<&'a str>,
    /// Where that of the other replay goes, if one is wanted.
    pub other_svg: Option<&'a str>,
}

/// What is wrong with the words (own).
#[derive(Clone, Copy)]
pub enum WordFault<'a> {
    Unknown(&'a str),
    Twice(&'a str),
    /// Nothing stands behind an option with a value.
    NoValue(&'a str),
    /// It isn't a number of one to nine digits.
    BadNumber(&'a str),
    /// An option or a word lacks that has to be there.
    Missing(&'a str),
    /// A line for each job is wanted, and a comparison.
    CsvCompared,
    /// A picture of the other replay is wanted, and none is.
    NothingCompared,
}

impl<'a> fmt::Display for WordFault<'a> {
    fn fmt<W: fmt::Write>(&self, f: &mut fmt::Formatter<W>) -> fmt::Result {
        match self {
            WordFault::Unknown(word) => write!(f, "unknown option {word}"),
            WordFault::Twice(word) => write!(f, "{word} stands twice"),
            WordFault::NoValue(word) => write!(f, "{word} lacks its value"),
            WordFault::BadNumber(word) => write!(f, "no number: {word}"),
            WordFault::Missing(word) => write!(f, "{word} is missing"),
            WordFault::CsvCompared => f.write_str("--csv goes with no comparison"),
            WordFault::NothingCompared => f.write_str("--compare-svg goes with a comparison"),
        }
    }
}

/// The options with a value.
#[derive(Clone, Copy)]
enum Valued {
    Conf,
    Assocs,
    Interval,
    OtherConf,
    OtherAssocs,
    Most,
    Svg,
    OtherSvg,
}

/// What words have said so far.
#[derive(Clone, Copy)]
struct Draft<'a> {
    conf: Option<&'a str>,
    assocs: Option<&'a str>,
    trace: Option<&'a str>,
    interval: Option<&'a str>,
    other_conf: Option<&'a str>,
    other_assocs: Option<&'a str>,
    most: Option<&'a str>,
    svg: Option<&'a str>,
    other_svg: Option<&'a str>,
    swf: bool,
    csv: bool,
    add_users: bool,
}

const NOTHING_SAID: Draft<'static> = Draft {
    conf: None,
    assocs: None,
    trace: None,
    interval: None,
    other_conf: None,
    other_assocs: None,
    most: None,
    svg: None,
    other_svg: None,
    swf: false,
    csv: false,
    add_users: false,
};

fn option_named(word: &str) -> Option<Valued> {
    match word {
        "-f" => Some(Valued::Conf),
        "-a" => Some(Valued::Assocs),
        "--interval" => Some(Valued::Interval),
        "--compare-conf" => Some(Valued::OtherConf),
        "--compare-assoc" => Some(Valued::OtherAssocs),
        "--most" => Some(Valued::Most),
        "--svg" => Some(Valued::Svg),
        "--compare-svg" => Some(Valued::OtherSvg),
        _ => None,
    }
}

fn option_word(valued: Valued) -> &'static str {
    match valued {
        Valued::Conf => "-f",
        Valued::Assocs => "-a",
        Valued::Interval => "--interval",
        Valued::OtherConf => "--compare-conf",
        Valued::OtherAssocs => "--compare-assoc",
        Valued::Most => "--most",
        Valued::Svg => "--svg",
        Valued::OtherSvg => "--compare-svg",
    }
}

fn value_in<'a>(draft: &Draft<'a>, valued: Valued) -> Option<&'a str> {
    match valued {
        Valued::Conf => draft.conf,
        Valued::Assocs => draft.assocs,
        Valued::Interval => draft.interval,
        Valued::OtherConf => draft.other_conf,
        Valued::OtherAssocs => draft.other_assocs,
        Valued::Most => draft.most,
        Valued::Svg => draft.svg,
        Valued::OtherSvg => draft.other_svg,
    }
}

// With a value of an option that has none yet.
fn with_value<'a>(draft: Draft<'a>, valued: Valued, value: &'a str) -> Draft<'a> {
    let mut next = draft;
    match valued {
        Valued::Conf => next.conf = Some(value),
        Valued::Assocs => next.assocs = Some(value),
        Valued::Interval => next.interval = Some(value),
        Valued::OtherConf => next.other_conf = Some(value),
        Valued::OtherAssocs => next.other_assocs = Some(value),
        Valued::Most => next.most = Some(value),
        Valued::Svg => next.svg = Some(value),
        Valued::OtherSvg => next.other_svg = Some(value),
    }
    next
}

// With a word that stands by itself: a flag, or the name of the trace.
fn with_word<'a>(draft: Draft<'a>, word: &'a str) -> Result<Draft<'a>, WordFault<'a>> {
    let mut next = draft;
    match word {
        "--swf" => next.swf = true,
        "--csv" => next.csv = true,
        "--add-users" => next.add_users = true,
        _ => {
            if word.starts_with("-") {
                return Err(WordFault::Unknown(word));
            }
            if draft.trace.is_some() {
                return Err(WordFault::Twice("TRACE"));
            }
            next.trace = Some(word);
        }
    }
    Ok(next)
}

// The option that a word begins, where it has no value yet.
fn begun<'a>(draft: &Draft<'a>, word: &'a str) -> Result<Option<Valued>, WordFault<'a>> {
    match option_named(word) {
        Some(option) => {
            if value_in(draft, option).is_some() {
                Err(WordFault::Twice(word))
            } else {
                Ok(Some(option))
            }
        }
        None => Ok(None),
    }
}

// What words say.
fn drafted(words: &[String]) -> Result<Draft<'_>, WordFault<'_>> {
    let mut draft = NOTHING_SAID;
    let mut open: Option<Valued> = None;
    for word in words {
        let word = word.as_str();
        match open {
            Some(option) => {
                draft = with_value(draft, option, word);
                open = None;
            }
            None => match begun(&draft, word)? {
                Some(option) => open = Some(option),
                None => draft = with_word(draft, word)?,
            },
        }
    }
    match open {
        Some(option) => Err(WordFault::NoValue(option_word(option))),
        None => Ok(draft),
    }
}

fn is_compared(draft: &Draft<'_>) -> bool {
    draft.other_conf.is_some() || draft.other_assocs.is_some()
}

// The number that was said, if one was.
fn number_said(said: Option<&str>) -> Result<Option<u64>, WordFault<'_>> {
    match said {
        Some(text) => match parse_number(text.as_bytes(), 9, 999_999_999) {
            Some(number) => Ok(Some(number)),
            None => Err(WordFault::BadNumber(text)),
        },
        None => Ok(None),
    }
}

fn needed<'a>(said: Option<&'a str>, word: &'a str) -> Result<&'a str, WordFault<'a>> {
    match said {
        Some(text) => Ok(text),
        None => Err(WordFault::Missing(word)),
    }
}

/// What the words behind the program's name want, or the first fault in them. Options stand in any order, and each once.
/// Accounts, partitions and qualities of service of the trace count where it is of sacct(1).
pub fn wanted_in(words: &[String]) -> Result<Wanted<'_>, WordFault<'_>> {
    let draft = drafted(words)?;
    let conf = needed(draft.conf, "-f")?;
    let assocs = needed(draft.assocs, "-a")?;
    let trace = needed(draft.trace, "TRACE")?;
    let interval = number_said(draft.interval)?;
    let most = number_said(draft.most)?.unwrap_or(USUAL_MOST);
    if draft.csv && is_compared(&draft) {
        return Err(WordFault::CsvCompared);
    }
    if draft.other_svg.is_some() && !is_compared(&draft) {
        return Err(WordFault::NothingCompared);
    }
    let counts = !draft.swf;
    Ok(Wanted {
        conf,
        assocs,
        trace,
        kind: if draft.swf {
            TraceKind::Swf
        } else {
            TraceKind::Sacct
        },
        interval,
        taken: TakenNames {
            account: counts,
            partition: counts,
            qos: counts,
        },
        add_users: draft.add_users,
        csv: draft.csv,
        other_conf: draft.other_conf,
        other_assocs: draft.other_assocs,
        most: most as usize,
        svg: draft.svg,
        other_svg: draft.other_svg,
    })
}
