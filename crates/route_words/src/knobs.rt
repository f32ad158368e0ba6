//! Numbers and knobs, by the values of the options.
//! Lengths come in um and leave in nm.

ghost use Rattle.std.specs.Prelude.{◌≡◌, ◌*◌, ◌≤◌, length};
ghost use Rattle.std.specs.List.{list_all};
ghost use Rattle.std.specs.Option.{option_map};
ghost use Rattle.route_words.specs.Words.{is_digit, number_in, is_short_number, number_between, number_or};
ghost use Rattle.route_words.specs.Words.{grid_in, knobs_in};

use crate::Knobs;
use crate::limits::{
    LONGEST_GRID, MOST_PASSES, MOST_TRIES, MOST_VIA_COST, MOST_WORKERS, PASSES, TRIES, VIA_COST,
    WORKERS,
};

fn are_digits(word: &[u8]) -> bool
    ensures { result ≡ list_all is_digit word.now }
{
    for c in word {
        if !(b'0' <= *c && *c <= b'9') {
            return false;
        }
    }
    true
}

fn tests_short_number(word: &[u8]) -> bool
    ensures { result ≡ is_short_number word.now }
{
    1 <= word.len() && word.len() <= 7 && are_digits(word)
}

// The number of up to seven digits.
fn number_of_digits(digits: &[u8]) -> u32
    requires { length digits.now ≤ 7 }
    ensures { result ≡ number_in digits.now }
{
    let mut value = 0u32;
    for d in digits {
        value = 10 * value + u32::from(d.saturating_sub(b'0'));
    }
    value
}

/// The number from `least` to `most` that one to seven digits spell.
pub fn number_between(least: u32, most: u32, digits: &[u8]) -> Option<u32>
    ensures { result ≡ number_between least most digits.now }
{
    if !tests_short_number(digits) {
        return None;
    }
    let n = number_of_digits(digits);
    if least <= n && n <= most {
        Some(n)
    } else {
        None
    }
}

/// The number from `least` to `most` that a word of one to seven digits spells.
pub(crate) fn read_number(least: u32, most: u32, word: &str) -> Option<u32>
    ensures { result ≡ number_between least most word.now }
{
    number_between(least, most, word.as_bytes())
}

fn number_or(default: u32, least: u32, most: u32, word: Option<&str>) -> Option<u32>
    ensures { result ≡ number_or default least most (option_map (λ w. w.now) word.entry) }
{
    match word {
        None => Some(default),
        Some(word) => read_number(least, most, word),
    }
}

fn nm_of(um: u32) -> u64
    ensures { result ≡ 1000 * um }
{
    1000 * u64::from(um)
}

fn read_grid(word: Option<&str>) -> Option<Option<u64>>
    ensures { result ≡ grid_in (option_map (λ w. w.now) word.entry) }
{
    match word {
        None => Some(None),
        Some(word) => {
            let um = read_number(1, LONGEST_GRID, word)?;
            Some(Some(nm_of(um)))
        }
    }
}

/// The knobs that these values of `--grid`, `--workers`, `--passes`, `--via-cost` and `--tries` give.
/// None comes exactly where one isn't one to seven digits in its range.
pub(crate) fn read_knobs(
    grid: Option<&str>,
    workers: Option<&str>,
    passes: Option<&str>,
    via_cost: Option<&str>,
    tries: Option<&str>,
    omit_fixed: bool,
) -> Option<Knobs>
    ensures { result ≡ knobs_in (option_map (λ w. w.now) grid.entry) (option_map (λ w. w.now) workers.entry)
        (option_map (λ w. w.now) passes.entry) (option_map (λ w. w.now) via_cost.entry)
        (option_map (λ w. w.now) tries.entry) omit_fixed }
{
    let grid = read_grid(grid)?;
    let workers = number_or(WORKERS, 1, MOST_WORKERS, workers)?;
    let passes = number_or(PASSES, 1, MOST_PASSES, passes)?;
    let um = number_or(VIA_COST, 0, MOST_VIA_COST, via_cost)?;
    let tries = number_or(TRIES, 0, MOST_TRIES, tries)?;
    Some(Knobs {
        grid,
        workers,
        passes,
        via_cost: nm_of(um),
        tries,
        omit_fixed,
    })
}
