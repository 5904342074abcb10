//! What the last word of a `pol` line may still become.

ghost use Rattle.std.specs.Prelude.{◌≡◌};
ghost use Rattle.pb_proof.specs.engine.line.Pol.{is_free, held_number, held_name, turns};

/// What the last word may still become.
#[derive(Clone, Copy, Drop)]
pub enum Held {
    /// Nothing else.
    Nothing,
    /// It is an id, and `*` or `d` makes it a factor.
    Number,
    /// It is a factor, as it is too large for an id: `*` or `d` has to follow.
    Large,
    /// It is a name, and `w` makes it a variable to weaken.
    Name,
}

/// Whether no operator is missing after the last word.
pub fn is_free(held: Held) -> bool
    ensures { result ≡ is_free held }
{
    !matches!(held, Held::Large)
}

/// What an id may still become.
pub fn held_number(limit: u128, depth: usize, number: u128) -> Held
    ensures { result ≡ held_number limit depth number }
{
    if depth > 0 && number <= limit {
        Held::Number
    } else {
        Held::Nothing
    }
}

/// What a literal may still become.
pub fn held_name(negated: bool, depth: usize) -> Held
    ensures { result ≡ held_name negated depth }
{
    if negated || depth == 0 {
        Held::Nothing
    } else {
        Held::Name
    }
}

/// Whether the operator takes the last word.
pub fn turns(held: Held, mark: u8) -> bool
    ensures { result ≡ turns held mark }
{
    match held {
        Held::Nothing => false,
        Held::Number | Held::Large => mark == b'*' || mark == b'd',
        Held::Name => mark == b'w',
    }
}
