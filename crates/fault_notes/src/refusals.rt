//! What is wrong with refused words, with a refused design and with a session and its report, by number, and what a
//! limit is of.
//! Each is told in a few words of one line.

ghost use Rattle.fault_notes.specs.Notes.{IsPlain};

use crate::Counted;
use dsn_shapes::table::{
    BAD_FORM, BAD_PAIR, BAD_QUOTE_BYTE, LEFT_OUT, NAMED_TWICE, NO_BOARD, NO_BOUNDARY, NO_CLASS,
    NO_IMAGE, NO_LAYER, NO_LIST, NO_NET, NO_NUMBER, NO_PADSTACK, NO_PIN, NO_SECTION, NO_UNIT,
    OUT_OF_RANGE, PAST_LIMIT, QUOTE_OPEN, SURPLUS, TAKEN_PIN, TOO_DEEP, TWO_PINS, UNCLOSED,
    UNPLACED_PIN,
};

/// What is wrong with refused words.
pub(crate) fn usage_words(number: u64) -> &'static str
    ensures { IsPlain result.now }
{
    match number {
        1 => "there is no command",
        2 => "there is no such command",
        _ => "the words don't fit the command",
    }
}

/// What a refusal of a design means, by the numbers from 1 to 26 of the table of refusals.
pub fn refusal_words(number: u8) -> &'static str
    ensures { IsPlain result.now }
{
    match number {
        QUOTE_OPEN => "a quoted piece has no end",
        BAD_QUOTE_BYTE => "the byte behind `(string_quote` is none of \", ' and $",
        UNCLOSED => "this bracket isn't closed",
        SURPLUS => "something stands before or behind the list",
        TOO_DEEP => "more than 64 brackets are open",
        NO_LIST => "there is no list",
        NO_BOARD => "the list isn't a `pcb` with a name",
        NO_SECTION => "`resolution`, `structure` or a layer is missing",
        NO_NUMBER => "a number is wanted, and isn't there or is none that can be",
        OUT_OF_RANGE => "a coordinate, width, clearance or angle is too large",
        NO_UNIT => "the unit isn't inch, mil, cm, mm or um",
        LEFT_OUT => "this program leaves this form out, or a name has a quotation mark",
        BAD_FORM => "the numbers of a shape, its layer or the side of a place don't fit",
        PAST_LIMIT => "a limit is passed",
        NO_BOUNDARY => "there is no boundary",
        NO_LAYER => "no layer has this name",
        NAMED_TWICE => "a second layer, padstack, image, pin, component or net has this name",
        NO_PADSTACK => "the library has no padstack of this name",
        NO_IMAGE => "the library has no image of this name",
        NO_PIN => "no component and pin fit this reference",
        TWO_PINS => "this reference fits two pins",
        TAKEN_PIN => "a second net names this pin",
        UNPLACED_PIN => "this reference names a component without coordinates",
        NO_NET => "no net has this name",
        NO_CLASS => "no class has this name",
        BAD_PAIR => "the list hasn't just one `classes` list with two names",
        _ => "the design isn't as it should be",
    }
}

/// What is wrong with a session or its report, by the numbers from 1 to 7 of the lines `check N at M`.
pub fn check_words(number: u64) -> &'static str
    ensures { IsPlain result.now }
{
    match number {
        1 => "this can't be read as a session of the design",
        2 => "this line isn't in the report's form, or a number in it isn't that of the design",
        3 => "it comes too near to another item",
        4 => "it doesn't lie inside the board",
        5 => "it is too narrow, on a power layer, or a via that its net doesn't list",
        6 => "the line of this net isn't true of the session",
        7 => "the cut of the island with this first pin isn't one",
        _ => "the session or the report isn't as it should be",
    }
}

/// What follows the number and the name of what is counted, where a limit is passed.
pub(crate) fn limit_words(counted: Counted) -> &'static str
    ensures { IsPlain result.now }
{
    match counted {
        Counted::Bytes => " are the most of a file",
        Counted::Vertices => " are the most of a shape",
        Counted::Nodes =>
            " in the lattice, where 16777216 are the most: give `route` a coarser --grid",
        _ => " are the most of a design",
    }
}
