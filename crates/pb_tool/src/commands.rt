//! The commands.

pub(crate) mod check;
pub(crate) mod show;
pub(crate) mod tidy;
