//! Rows on the rules of values, and on limits.

use crate::broken::Broken;
use crate::name::lines_of;
use crate::page::{Done, Page, answered, page, report_either};
use crate::row::call::{Call, Grammar};
use crate::row::value::{instance_of, proof_of, statement_of};
use pb_opb::instance_is_value;
use pb_proof::{proof_is_value, statement_is_value};
use pb_sums::{write_count, write_number};
use pb_text::{Limits, write_bytes};
use std::alloc::Global;

/// Makes a value of the lines of the input, and reports whether it meets the rules.
/// `judge statement` does so for each line.
pub(crate) fn run_judge(alloc: Global, call: &Call, text: &[u8]) -> Result<Done, Broken> {
    let limits = call.limits()?;
    let lines = lines_of(text)?;
    let mut reported = page(alloc);
    match call.grammar {
        Grammar::Opb => {
            let instance = instance_of(alloc, lines)?;
            report(instance_is_value(&instance, limits), &mut reported)?;
        }
        Grammar::Proof => {
            let proof = proof_of(alloc, lines)?;
            report(proof_is_value(&proof, limits), &mut reported)?;
        }
        Grammar::Statement => judge_lines(alloc, lines, limits, &mut reported)?,
        _ => return Err(Broken::Word),
    }
    Ok(answered(alloc, reported))
}

fn judge_lines(
    alloc: Global,
    lines: &str,
    limits: Limits,
    reported: &mut Page,
) -> Result<(), Broken> {
    for line in lines.lines() {
        let statement = statement_of(alloc, line)?;
        report(statement_is_value(&statement, limits), reported)?;
    }
    Ok(())
}

fn report(is_value: bool, reported: &mut Page) -> Result<(), Broken> {
    report_either(is_value, b"value\n", b"no value\n", reported)?;
    Ok(())
}

/// Reports the limits that a call names, or that they are not allowed.
pub(crate) fn run_limits(alloc: Global, call: &Call) -> Result<Done, Broken> {
    let mut reported = page(alloc);
    match Limits::new(call.bits, call.top) {
        Some(limits) => {
            write_count(limits.bits() as u64, &mut reported)?;
            write_bytes(b" ", &mut reported)?;
            write_count(limits.top(), &mut reported)?;
            write_bytes(b" ", &mut reported)?;
            write_number(limits.largest() as i128, &mut reported)?;
            write_bytes(b"\n", &mut reported)?;
        }
        None => write_bytes(b"none\n", &mut reported)?,
    }
    Ok(answered(alloc, reported))
}
