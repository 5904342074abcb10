//! Where and why a text is rejected, as numbers.

ghost use Rattle.std.specs.Prelude.{◌≡◌, pos};
ghost use Rattle.pb_tool.specs.contract.Faults.{stop_status};
ghost use Rattle.pb_c.specs.Report.{fault_code, fault_id, fault_number, of_instance, position_of, report_at, report_of, report_of_opening, report_of_place, report_of_reason, report_of_stop, report_with, status_of_fault, status_of_opening, why_code, why_number};

use pb_pieces::OpenFault;
use pb_replay::Fault;
use pb_text::{Place, Stop, Why};
use pb_tool::CheckFault;

/// The reason for options that are not allowed, and for a handle that is closed.
pub(crate) const MISUSED: u32 = 32;

/// The reason for memory that ran out.
pub(crate) const SPENT: u32 = 6;

/// The number of a result that exceeds the limit.
const OVERFLOW: u32 = 10;

/// The text of the instance.
pub(crate) const INSTANCE: u32 = 1;

/// The text of the proof.
pub(crate) const PROOF: u32 = 2;

/// A position in a text.
#[repr(C)]
#[derive(Clone, Copy)]
pub struct Position {
    /// The line, from 1.
    pub line: u64,
    /// The column, in bytes and from 1.
    pub column: u64,
    /// The offset, in bytes and from 0.
    pub offset: u64,
}

impl Position {
    pub(crate) fn of(place: Place) -> Position
        ensures { result ≡ position_of place }
    {
        Position {
            line: place.line,
            column: place.column,
            offset: place.offset,
        }
    }
}

/// A position of a text, and the reason why it is rejected there, or 0.
#[repr(C)]
#[derive(Clone, Copy)]
pub struct Report {
    /// The line, from 1, or 0 if there is no position.
    pub line: u64,
    /// The column, in bytes and from 1, or 0.
    pub column: u64,
    /// The offset, in bytes and from 0.
    pub offset: u64,
    /// The byte, the count, the number of the name or the id of the constraint that the reason is
    /// about, or 0.
    pub number: u64,
    /// The id, as written, that names no live constraint, or 0.
    pub id: i64,
    /// The number of the reason, or 0.
    pub reason: u32,
    /// 1 for the instance, 2 for the proof, and 0 for neither.
    pub input: u32,
}

impl Report {
    /// A report that rejects nothing.
    pub(crate) fn of_place(place: Place) -> Report
        ensures { result ≡ report_of_place place }
    {
        Report::at(place, PROOF, 0, 0, 0)
    }

    /// A report of one of the texts that rejects nothing.
    pub(crate) fn of_text(input: u32, place: Place) -> Report
        ensures { result ≡ report_at place input 0 0 (pos 0) }
    {
        Report::at(place, input, 0, 0, 0)
    }

    /// A report of neither text, with a reason.
    pub(crate) fn of_reason(reason: u32) -> Report
        ensures { result ≡ report_of_reason reason }
    {
        Report::with(0, reason)
    }

    /// A report of the instance with a reason, or 0, and no position.
    pub(crate) fn of_instance(reason: u32) -> Report
        ensures { result ≡ report_with of_instance reason }
    {
        Report::with(INSTANCE, reason)
    }

    /// The report of a fault of a proof.
    pub(crate) fn of_fault(fault: CheckFault) -> Report
        ensures { result ≡ report_of fault }
    {
        match fault {
            CheckFault::Text(stop) => Report::of_stop(PROOF, stop),
            CheckFault::Step(begins, fault) => Report::at(
                begins,
                PROOF,
                fault_code(fault),
                fault_number(fault),
                fault_id(fault),
            ),
        }
    }

    /// The report of an instance that has no session.
    pub(crate) fn of_opening(fault: OpenFault) -> Report
        ensures { result ≡ report_of_opening fault }
    {
        match fault {
            OpenFault::Text(stop) => Report::of_stop(INSTANCE, stop),
            OpenFault::Overflow => Report::with(INSTANCE, OVERFLOW),
            OpenFault::Memory => Report::with(INSTANCE, SPENT),
        }
    }

    /// The report of a reader that stopped.
    pub(crate) fn of_stop(input: u32, stop: Stop) -> Report
        ensures { result ≡ report_of_stop input stop }
    {
        Report::at(
            stop.place,
            input,
            why_code(stop.why),
            why_number(stop.why),
            0,
        )
    }

    fn at(place: Place, input: u32, reason: u32, number: u64, id: i64) -> Report
        ensures { result ≡ report_at place input reason number id }
    {
        Report {
            line: place.line,
            column: place.column,
            offset: place.offset,
            number,
            id,
            reason,
            input,
        }
    }

    /// A reason with no position.
    fn with(input: u32, reason: u32) -> Report
        ensures { result ≡ report_with input reason }
    {
        Report {
            line: 0,
            column: 0,
            offset: 0,
            number: 0,
            id: 0,
            reason,
            input,
        }
    }
}

/// The exit status of a fault of a proof.
pub(crate) fn fault_status(fault: CheckFault) -> u8
    ensures { result ≡ status_of_fault fault }
{
    match fault {
        CheckFault::Text(stop) => why_status(stop.why),
        CheckFault::Step(_, fault) => match fault {
            Fault::Memory => 3,
            _ => 1,
        },
    }
}

/// The exit status of an instance that has no session.
pub(crate) fn opening_status(fault: OpenFault) -> u8
    ensures { result ≡ status_of_opening fault }
{
    match fault {
        OpenFault::Text(stop) => why_status(stop.why),
        OpenFault::Overflow => 1,
        OpenFault::Memory => 3,
    }
}

/// The exit status of a reader that stopped.
pub(crate) fn why_status(why: Why) -> u8
    ensures { result ≡ stop_status why }
{
    match why {
        Why::Read | Why::Memory => 3,
        _ => 1,
    }
}

/// The number of the reason why a reader stopped.
fn why_code(why: Why) -> u32
    ensures { result ≡ why_code why }
{
    match why {
        Why::Byte(_) => 1,
        Why::TooLarge => 2,
        Why::Ended => 3,
        Why::TooLong => 4,
        Why::Read => 5,
        Why::Memory => SPENT,
    }
}

/// The byte that a reader rejected, or 0.
fn why_number(why: Why) -> u64
    ensures { result ≡ why_number why }
{
    match why {
        Why::Byte(byte) => byte as u64,
        _ => 0,
    }
}

/// The number of the reason why a statement is rejected.
fn fault_code(fault: Fault) -> u32
    ensures { result ≡ fault_code fault }
{
    match fault {
        Fault::Memory => SPENT,
        Fault::Overflow => OVERFLOW,
        Fault::FormulaCount(_) => 11,
        Fault::NoSuchId(_) => 12,
        Fault::NotImplied => 13,
        Fault::Conflict => 14,
        Fault::NotTotal(_) => 15,
        Fault::Violates(_) => 16,
        Fault::NoObjective => 17,
        Fault::NotContradiction => 18,
        Fault::SolutionLogged => 19,
        Fault::NoSolution => 20,
        Fault::NotBound => 21,
        Fault::IdsSpent => 22,
        Fault::Order => 23,
    }
}

/// The count, the number of the name or the id that the reason is about, or 0.
fn fault_number(fault: Fault) -> u64
    ensures { result ≡ fault_number fault }
{
    match fault {
        Fault::FormulaCount(count) => count,
        Fault::NotTotal(number) => number as u64,
        Fault::Violates(id) => id,
        _ => 0,
    }
}

/// The id that names no live constraint, as written, or 0.
fn fault_id(fault: Fault) -> i64
    ensures { result ≡ fault_id fault }
{
    match fault {
        Fault::NoSuchId(id) => id,
        _ => 0,
    }
}
