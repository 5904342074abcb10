//! Prepends statements to a piece.

ghost use Rattle.std.specs.Prelude.{◌≡◌, ◌++◌, IsTrue};
ghost use Rattle.pb_proof.specs.meaning.Canonical.{statement_bytes};

use crate::statement::Statement;
use crate::write::list::{put_lead, put_list};
use pb_sums::piece::Piece;
use pb_sums::{Linear, put_linear};

fn put_rup(goal: &Linear, piece: &mut Piece) -> bool
    ensures { IsTrue result → piece.new ≡ statement_bytes (Statement.Rup goal.now) ++ piece.old }
{
    put_linear(goal, piece) && put_lead(b"rup ", piece)
}

/// Prepends the line of a statement without its line feed, if it surely fits, and returns whether
/// it did. If it did not, the piece may have a part of it.
pub fn put_statement(statement: &Statement, piece: &mut Piece) -> bool
    ensures { IsTrue result → piece.new ≡ statement_bytes statement.now ++ piece.old }
{
    match statement {
        Statement::Pol(words) => put_list(b"pol", words.as_slice(), piece),
        Statement::Rup(goal) => put_rup(goal, piece),
        Statement::Soli(literals) => put_list(b"soli", literals.as_slice(), piece),
        Statement::Solx(literals) => put_list(b"solx", literals.as_slice(), piece),
        Statement::Delete(ids) => put_list(b"del id", ids.as_slice(), piece),
        _ => false,
    }
}
