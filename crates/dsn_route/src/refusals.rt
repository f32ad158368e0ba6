//! Files that aren't read, and texts without a design: their refusals by number, and the line of each.
//! Where a refusal is of a limit that is passed, the line and the status are those of the limit.

ghost use Rattle.std.specs.Prelude.{◌≡◌};
ghost use Rattle.dsn_route.specs.Texts.{refusal_of, tree_refusal};
ghost use Rattle.dsn_route.specs.inner.Said.{EndsBy, EndsUnread, due_of, line_of};

use crate::Status;
use crate::lines::{say_limit, say_over, say_read_fault, say_refused};
use crate::status::ended;
use desk_io::{DeskFail, Sink};
use dsn_shapes::table::{
    BAD_QUOTE_BYTE, NO_LIST, PAST_LIMIT, QUOTE_OPEN, SURPLUS, TOO_DEEP, UNCLOSED,
};
use dsn_shapes::{DesignFault, Refusal, refused};
use dsn_tree::TreeFault;
use std::alloc::Global;

/// The faults of a tree have the numbers 1 to 6; want of memory has none.
pub(crate) fn tree_refusal(fault: &TreeFault) -> Option<Refusal>
    ensures { result ≡ tree_refusal fault.now }
{
    match fault {
        TreeFault::QuoteOpen { at } => Some(refused(QUOTE_OPEN, *at)),
        TreeFault::BadQuoteByte { at } => Some(refused(BAD_QUOTE_BYTE, *at)),
        TreeFault::Unclosed { at } => Some(refused(UNCLOSED, *at)),
        TreeFault::Surplus { at } => Some(refused(SURPLUS, *at)),
        TreeFault::TooDeep { at } => Some(refused(TOO_DEEP, *at)),
        TreeFault::Empty => Some(refused(NO_LIST, 0)),
        TreeFault::Memory(_) => None,
    }
}

/// Puts the line of a file that gives no text, and answers how the call ends.
pub(crate) fn end_unread<R: Sink>(alloc: Global, fail: DeskFail, report: &mut R) -> Status
    ensures { EndsUnread fail (R.state report.old) (R.state report.new) result }
{
    match fail {
        DeskFail::Failed => ended(say_read_fault(report), Status::ReadFault),
        DeskFail::TooLong { seen: _ } => ended(say_limit(alloc, report), Status::Limit),
        DeskFail::Memory(_) => Status::Memory,
    }
}

/// The refusal of a text that has no design, or None where memory was wanting. Offsets count the bytes before.
pub fn refusal_of(fault: &DesignFault) -> Option<Refusal>
    ensures { result ≡ refusal_of fault.now }
{
    match fault {
        DesignFault::Spelling(fault) => tree_refusal(fault),
        DesignFault::Refused(refusal) => Some(*refusal),
        DesignFault::Memory(_) => None,
    }
}

/// Puts the line of a refusal, or that of the limit which it says is passed, and answers how the call ends.
pub fn end_refused<R: Sink>(alloc: Global, refusal: Refusal, report: &mut R) -> Status
    ensures { EndsBy (line_of refusal) (due_of refusal) (R.state report.old) (R.state report.new) result }
{
    if refusal.number == PAST_LIMIT {
        ended(
            say_over(alloc, refusal.what, refusal.limit, report),
            Status::Limit,
        )
    } else {
        ended(
            say_refused(alloc, refusal.number, refusal.at, report),
            Status::Refused,
        )
    }
}
