//! Rows of names and their numbers.

use crate::broken::Broken;
use crate::page::{Done, Page, answered, page, report_count, report_either};
use pb_normal::Names;
use pb_sums::is_name;
use pb_text::write_bytes;
use std::alloc::Global;

/// Reports for each line whether it is a name.
pub(crate) fn run_names(alloc: Global, text: &[u8]) -> Result<Done, Broken> {
    let mut reported = page(alloc);
    for line in lines_of(text)?.lines() {
        report_either(is_name(line), b"name\n", b"no name\n", &mut reported)?;
    }
    Ok(answered(alloc, reported))
}

/// Numbers names. A line `x1` finds the number of the name or gives it one. A line `? x1` only
/// finds it, and `# 0` finds the name of a number. Reports each result, and finally how many names
/// there are.
pub(crate) fn run_numbers(alloc: Global, text: &[u8]) -> Result<Done, Broken> {
    let lines = lines_of(text)?;
    let mut reported = page(alloc);
    let mut names = Names::new(alloc);
    for line in lines.lines() {
        answer_line(&mut names, line, &mut reported)?;
    }
    report_count(names.len() as u64, b" names\n", &mut reported)?;
    Ok(answered(alloc, reported))
}

fn answer_line(names: &mut Names, line: &str, reported: &mut Page) -> Result<(), Broken> {
    match line.split_once(' ') {
        Some(("?", name)) => report_number(names.number_of(name), reported),
        Some(("#", number)) => report_name(names, number, reported),
        Some(_) => Err(Broken::Value),
        None => Ok(report_count(names.number(line)? as u64, b"\n", reported)?),
    }
}

fn report_number(number: Option<usize>, reported: &mut Page) -> Result<(), Broken> {
    match number {
        Some(number) => report_count(number as u64, b"\n", reported)?,
        None => write_bytes(b"none\n", reported)?,
    }
    Ok(())
}

fn report_name(names: &Names, number: &str, reported: &mut Page) -> Result<(), Broken> {
    let Ok(number) = number.parse::<usize>() else {
        return Err(Broken::Value);
    };
    write_bytes(names.name_of(number).unwrap_or("none").as_bytes(), reported)?;
    write_bytes(b"\n", reported)?;
    Ok(())
}

/// The text of an input that is text.
pub(crate) fn lines_of(text: &[u8]) -> Result<&str, Broken> {
    match str::from_utf8(text) {
        Ok(lines) => Ok(lines),
        Err(_) => Err(Broken::Value),
    }
}
