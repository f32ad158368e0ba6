//! Words with a number behind them.

ghost use Rattle.std.specs.Prelude.{◌≡◌, ◌++◌, OnOk};
ghost use Rattle.ses_writer.specs.Words.{Appends};
ghost use Rattle.route_report.specs.Report.{counted, count_line};

use ses_writer::{put, put_whole};
use std::alloc::AllocError;

/// A word, and the number of what it counts.
#[tactic(auto, unfolding(crate::specs::Report::counted))]
pub(crate) fn put_counted(out: &mut Vec<u8>, word: &[u8], n: u64) -> Result<(), AllocError>
    ensures { OnOk result (Appends out.old.items out.new.items (counted word.now n)) }
{
    put(out, word)?;
    put_whole(out, n)
}

/// A word and its number at the end of a line.
pub(crate) fn put_count(out: &mut Vec<u8>, word: &[u8], n: u64) -> Result<(), AllocError>
    ensures { OnOk result (Appends out.old.items out.new.items (count_line word.now n)) }
{
    put_counted(out, word, n)?;
    put(out, b"\n")
}

/// Two words with their numbers at the end of a line.
pub(crate) fn put_pair(
    out: &mut Vec<u8>,
    word: &[u8],
    n: u64,
    last: &[u8],
    m: u64,
) -> Result<(), AllocError>
    ensures { OnOk result (Appends out.old.items out.new.items (counted word.now n ++ count_line last.now m)) }
{
    put_counted(out, word, n)?;
    put_count(out, last, m)
}
