//! Tables of texts: each line is the answer that a text must get, a tab, and the text. Headings begin with `#`.

use std::alloc::{AllocError, Global};
use std::rt::Files;
use std::{fs, io};

/// What answers the texts of a table.
pub(crate) trait Answers {
    /// Puts what is answered to a text, in words.
    fn answer(&self, alloc: Global, text: &str, words: &mut String) -> Result<(), AllocError>;
}

// How many texts there are, and how many of them get another answer.
#[derive(Clone, Copy)]
struct Counts {
    texts: u64,
    others: u64,
}

// Whether the answer found is that which is wanted; where it isn't, the line is printed.
fn is_wanted<R: Print>(rt: &R, found: &str, wanted: &str, text: &str) -> io::Result<bool> {
    if found == wanted {
        return Ok(true);
    }
    println!(rt; "{found}, and not {wanted}: {text}")?;
    Ok(false)
}

// Whether a text gets the answer that its line wants.
fn is_answered<R: Print + AllocGlobal, A: Answers>(
    rt: &R,
    reader: &A,
    wanted: &str,
    text: &str,
) -> io::Result<bool> {
    let mut found = String::new(rt.alloc());
    match reader.answer(rt.alloc(), text, &mut found) {
        Ok(()) => is_wanted(rt, found.as_str(), wanted, text),
        Err(error) => Err(io::Error::from(error)),
    }
}

fn check_line<R: Print + AllocGlobal, A: Answers>(
    rt: &R,
    reader: &A,
    line: &str,
    counts: Counts,
) -> io::Result<Counts> {
    if line.is_empty() || line.starts_with('#') {
        return Ok(counts);
    }
    let (wanted, text) = line.split_once('\t').unwrap_or((line, ""));
    let other = !is_answered(rt, reader, wanted, text)?;
    Ok(Counts {
        texts: counts.texts.saturating_add(1),
        others: counts.others.saturating_add(u64::from(other)),
    })
}

fn check_lines<R: Print + AllocGlobal, A: Answers>(
    rt: &R,
    reader: &A,
    table: &str,
) -> io::Result<Counts> {
    let mut counts = Counts {
        texts: 0,
        others: 0,
    };
    for line in table.lines() {
        counts = check_line(rt, reader, line, counts)?;
    }
    Ok(counts)
}

/// Checks each line of the table in a file. Prints each whose text gets another answer than it wants, and how many
/// texts there are.
pub(crate) fn check_table<R: Files + Print + AllocGlobal, A: Answers>(
    rt: &R,
    reader: &A,
    file: &str,
) -> io::Result<()> {
    let table = fs::read_to_string(rt, file)?;
    let counts = check_lines(rt, reader, table.as_str());
    drop(table);
    let Counts { texts, others } = counts?;
    if others == 0 {
        return println!(rt; "{texts} texts, all answered as the table says");
    }
    println!(rt; "{texts} texts, {others} answered otherwise")
}
