//! An instance in flat arrays, statement by statement.

ghost use Rattle.std.specs.Prelude.{◌≡◌, ◌∷◌, ◌++◌, [], List, OnOk, length};
ghost use Rattle.pb_text.specs.declared.Spanned.{Spanned as ASpanned};
ghost use Rattle.pb_opb.specs.declared.OpbEvent.{OpbEvent as AnEvent};
ghost use Rattle.pb_sums.specs.declared.Term.{Term as ATerm};
ghost use Rattle.pb_pieces.specs.Instance.{HoldAll, IsFlatOf, kind_code};
ghost use Rattle.pb_pieces.specs.declared.rows.Row.{Row as ARow};
ghost use Rattle.pb_pieces.specs.declared.places.Span.{Span as ASpan};

use crate::flat::Named;
use crate::places::{Places, Span};
use crate::rows::{Row, Rows};
use pb_normal::HashKeys;
use pb_opb::OpbEvent;
use pb_sums::{Relation, Term};
use pb_text::{Sequence, Spanned};
use std::alloc::{AllocError, Global};

/// An instance in flat arrays: its terms one after another, with the names that they are numbered
/// by, and its objective and constraints, with their positions.
#[derive(Drop)]
pub struct Flat {
    pub named: Named,
    pub rows: Rows,
    pub places: Places,
}

impl Flat {
    /// No statements. It allocates nothing.
    pub fn new(alloc: Global, keys: HashKeys) -> Flat
        ensures { IsFlatOf [] result }
    {
        Flat {
            named: Named::new(alloc, keys),
            rows: Rows::new(alloc),
            places: Places::new(alloc),
        }
    }

    /// One more row, with its terms.
    fn push(
        &mut self,
        terms: &Sequence<Term>,
        kind: u8,
        degree: i128,
        span: Span,
    ) -> Result<(), AllocError>
        ensures { (before : List ATerm) (rows : List ARow) (spans : List ASpan) →
            HoldAll before rows spans self.old
            → OnOk result
            (HoldAll (before ++ terms.now)
            (rows ++ (record {
              kind = kind;
              end = length (before ++ terms.now);
              degree = degree;
            }) ∷ [])
            (spans ++ span ∷ []) self.new) }
    {
        self.named.extend(terms)?;
        let end = self.named.len();
        self.rows.push(Row { kind, end, degree })?;
        self.places.push(span)?;
        Ok(())
    }

    /// One more statement. A header and a comment add nothing.
    pub fn add(&mut self, read: &Spanned<OpbEvent>) -> Result<(), AllocError>
        ensures { (spans : List (ASpanned AnEvent)) → IsFlatOf spans self.old →
            OnOk result (IsFlatOf (spans ++ read.now ∷ []) self.new) }
    {
        let span = Span {
            first: read.first,
            past: read.past,
        };
        match &read.event {
            OpbEvent::Objective(terms) => {
                self.push(terms, 0, 0, span)?;
                Ok(())
            }
            OpbEvent::Constraint(linear) => {
                self.push(
                    &linear.terms,
                    kind_code(linear.relation),
                    linear.degree,
                    span,
                )?;
                Ok(())
            }
            OpbEvent::Header { .. } | OpbEvent::Comment(_) => Ok(()),
        }
    }
}

/// 1 for `>=`, 2 for `=`.
fn kind_code(relation: Relation) -> u8
    ensures { result ≡ kind_code relation }
{
    match relation {
        Relation::AtLeast => 1,
        Relation::Equal => 2,
    }
}
