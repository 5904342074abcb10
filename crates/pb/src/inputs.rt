//! The files of a job, or standard input.

use crate::asked::named;
use crate::failure::Failure;
use crate::origin::{Origin, is_standard};
use crate::until::UntilEnd;
use pb_tool::Input;
use std::fs;
use std::io::Read;
use std::rt::Files;

/// A reader of a file or of standard input.
pub(crate) type Opened<R, S> = UntilEnd<Origin<<R as Files>::File, S>>;

/// The name of a file, or `None` for standard input.
pub(crate) fn path_of(file: &Option<String>) -> Option<&str> {
    match file {
        Some(path) if !is_standard(path.as_str()) => Some(path.as_str()),
        _ => None,
    }
}

/// Opens a file for reading, or takes standard input if no file is named.
pub(crate) fn opened<R: Files, S: Read + Copy>(
    rt: &R,
    standard: S,
    path: Option<&str>,
    input: Input,
) -> Result<UntilEnd<Origin<R::File, S>>, Failure> {
    match path {
        Some(path) => match fs::open(rt, path) {
            Ok(file) => Ok(UntilEnd::new(Origin::File(file))),
            Err(reason) => Err(Failure::unopened(input, reason)),
        },
        None => Ok(UntilEnd::new(Origin::Standard(standard))),
    }
}

/// Opens an instance and a proof of it. Both are opened before either is read.
pub(crate) fn open_both<R: Files, S: Read + Copy>(
    rt: &R,
    standard: S,
    instance: &str,
    proof: Option<&str>,
) -> Result<(Opened<R, S>, Opened<R, S>), Failure> {
    let instance = opened(rt, standard, named(instance), Input::Instance)?;
    let proof = opened(rt, standard, proof, Input::Proof)?;
    Ok((instance, proof))
}

/// The bytes of a file, if it is named and its size is known.
pub(crate) fn size_of<R: Files>(rt: &R, path: Option<&str>) -> Option<u64> {
    match fs::metadata(rt, path?) {
        Ok(data) if data.is_file() => Some(data.len()),
        _ => None,
    }
}
