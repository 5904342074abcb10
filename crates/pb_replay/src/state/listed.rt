//! A list of forms that only contracts read.

ghost use Rattle.std.specs.Prelude.{◌≡◌, List, []};
ghost use Rattle.std.specs.Borrow.{ftrue};
ghost use Rattle.pb_normal.specs.meaning.Form.{Form};

use pb_normal::Normal;
use std::marker::{Model, PhantomData};

/// Forms that are seen by contracts only. They take no memory, and the methods do nothing at run
/// time.
#[derive(Drop)]
pub(crate) struct Listed {
    marker: PhantomData<u8>,
    pub(crate) ghost forms: { List Form },
}

impl Model for Listed {
    ghost also_owns = { λ _. ftrue };
}

impl Listed {
    /// No forms.
    pub(crate) fn new() -> Listed
        ensures { result.forms ≡ [] }
    {
        Listed {
            marker: PhantomData,
        }
    }

    /// These forms.
    pub(crate) fn of(_forms: &Vec<Normal>) -> Listed
        ensures { result.forms ≡ _forms.now.items }
    {
        Listed {
            marker: PhantomData,
        }
    }
}
