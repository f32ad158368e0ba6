//! What the words ask for, and why they are refused.
//! Lengths are in nm.

use crate::Text;
use std::alloc::AllocError;
use thiserror::Error;

/// The knobs of `route`.
#[derive(Clone, Copy, PartialEq, Eq)]
pub struct Knobs {
    /// The distance of the lattice's lines in nm, from 1,000 to 100,000,000; None asks for the design's default grid.
    pub grid: Option<u64>,
    /// How many workers there are, from 1 to 16.
    pub workers: u32,
    /// How many passes there are at most, from 1 to 99.
    pub passes: u32,
    /// What a via costs, as a length in nm, at most 1,000,000,000.
    pub via_cost: u64,
    /// Of how many items that a cut names settled moves are tried, at most 1,000.
    pub tries: u32,
    /// Whether the session leaves the fixed wiring out.
    pub omit_fixed: bool,
}

/// What the words ask for.
#[derive(Drop)]
pub enum Command {
    /// Route the design in the file `input`, and write the session into the file `output`. Where the file `from` is
    /// named, the design's wiring is that of the earlier session in it. No name is empty. With `diagonal` the closing
    /// pass joins what legal moves leave open by moves at 45 degrees.
    Route {
        input: Text,
        output: Text,
        from: Option<Text>,
        diagonal: bool,
        knobs: Knobs,
    },
    /// Judge the session in the file `session` and the report in the file `report` by the design in the file `input`.
    /// No name is empty.
    Check {
        input: Text,
        session: Text,
        report: Text,
    },
    /// Route the generated board of this number, from 1 to 400.
    Gen {
        n: u32,
    },
}

/// Why there is no command.
#[derive(Clone, Copy, Debug, PartialEq, Eq, Error)]
pub enum WordFault {
    /// There is no word.
    #[error("there is no command")]
    NoCommand,
    /// The first word is no command.
    #[error("there is no such command")]
    UnknownCommand,
    /// What follows the command doesn't fit it.
    #[error("the words don't fit the command")]
    Usage,
    /// There was no memory for the words.
    #[error(transparent)]
    Memory(AllocError),
}

impl From<AllocError> for WordFault {
    ghost use Rattle.std.specs.Prelude.{◌≡◌};
    ghost use Rattle.route_words.specs.declared.command.WordFault.TheVariants.{Memory};

    ghost from_gives = { λ e f. f ≡ Memory e };

    fn from(error: AllocError) -> WordFault {
        WordFault::Memory(error)
    }
}
