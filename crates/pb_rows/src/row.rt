//! One row.

mod accepted;
pub(crate) mod call;
pub(crate) mod spell;
pub(crate) mod value;

use crate::broken::Broken;
use crate::page::Done;
use crate::row::spell::{add_line, add_text};
use std::alloc::Global;

/// The word of a call whose input is that of the row before.
const SAME: &str = "same";

/// Where the input of a row comes from.
#[derive(Clone, Copy)]
enum Input {
    /// It has none yet.
    Missing,
    /// It is that of the row before.
    Same,
    /// It is its own.
    Own,
}

/// A row: its file, the line of its call, its input, its expected output and its expected result.
#[derive(Drop)]
pub struct Row<'a> {
    pub file: &'a str,
    pub number: u64,
    pub call: &'a str,
    pub input: Vec<u8>,
    pub wanted: Done,
    /// Why one of its lines could not be read.
    broken: Option<Broken>,
    source: Input,
}

impl<'a> Row<'a> {
    /// A row that has not begun.
    pub(crate) fn new(alloc: Global, file: &'a str) -> Row<'a> {
        Row {
            file,
            number: 0,
            call: "",
            input: Vec::new(alloc),
            wanted: Done {
                written: Vec::new(alloc),
                answer: Vec::new(alloc),
            },
            broken: None,
            source: Input::Missing,
        }
    }

    /// The reason why the row cannot be run, if there is one.
    pub(crate) fn fault(&self) -> Result<(), Broken> {
        match (self.broken, self.source) {
            (Some(broken), _) => Err(broken),
            (None, Input::Missing) => Err(Broken::NoInput),
            (None, _) => Ok(()),
        }
    }

    /// Notes whether a line could be added.
    pub(crate) fn note(&mut self, added: Result<(), Broken>) {
        if let Err(broken) = added {
            self.broken = Some(broken);
        }
    }

    /// Begins a row with no input yet, or with that of the row before.
    fn begin(&mut self, number: u64, call: &'a str) {
        self.number = number;
        self.call = call;
        self.wanted.written.clear();
        self.wanted.answer.clear();
        self.broken = None;
        self.source = if call.split_whitespace().any(|word| word == SAME) {
            Input::Same
        } else {
            Input::Missing
        };
    }

    /// Begins a row with a line: its call only, or its call, its input and the lines of its result,
    /// separated by ` | `.
    pub(crate) fn begin_line(&mut self, number: u64, line: &'a str) -> Result<(), Broken> {
        let mut parts = line.split(" | ");
        self.begin(number, parts.next().unwrap_or(""));
        if let Some(input) = parts.next() {
            self.own_input()?;
            add_text(&mut self.input, input)?;
        }
        for answer in parts {
            add_line(&mut self.wanted.answer, answer)?;
        }
        Ok(())
    }

    /// Adds a line of input.
    pub(crate) fn add_input(&mut self, line: &str) -> Result<(), Broken> {
        self.own_input()?;
        add_line(&mut self.input, line)
    }

    /// Clears the input of the row before, if this row has none yet.
    fn own_input(&mut self) -> Result<(), Broken> {
        match self.source {
            Input::Own => {}
            Input::Same => return Err(Broken::TwoInputs),
            Input::Missing => {
                self.input.clear();
                self.source = Input::Own;
            }
        }
        Ok(())
    }
}
