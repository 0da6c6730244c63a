//! What both kinds of file say, as text.

use plain_data::limit::Limit;
use small_texts::name::Name;
use std::io;

/// Numbers, each behind its key.
pub(crate) fn show_numbers(rt: &impl Print, numbers: &[(&str, u64)]) -> io::Result<()> {
    for &(key, number) in numbers {
        print!(rt; " {key}={number}")?;
    }
    Ok(())
}

/// A name behind its key.
pub(crate) fn show_name(rt: &impl Print, key: &str, name: &Name) -> io::Result<()> {
    print!(rt; "{key}")?;
    rt.write_all(name.as_bytes())
}

/// Names behind their key, each with a comma behind it.
pub(crate) fn show_names(rt: &impl Print, key: &str, names: &[Name]) -> io::Result<()> {
    print!(rt; "{key}")?;
    for name in names {
        rt.write_all(name.as_bytes())?;
        print!(rt; ",")?;
    }
    Ok(())
}

/// A limit of time behind its key.
pub(crate) fn show_limit(rt: &impl Print, key: &str, limit: Limit) -> io::Result<()> {
    match limit {
        Limit::Unlimited => print!(rt; "{key}UNLIMITED"),
        Limit::Minutes(minutes) => {
            let number = minutes.get();
            print!(rt; "{key}{number}")
        }
    }
}
