//! Laws over the definitions alone. These functions do nothing: what they ensure are the laws.

ghost use Rattle.std.specs.Prelude.{◌≡◌, ◌<◌, ◌≤◌, ◌↔◌, ℕ, ℤ, Bool, List, ◌++◌, All, Some, length, nat_lt, slice_get, true};
ghost use Rattle.pb_sums.specs.declared.linear.Term.{Term};
ghost use Rattle.pb_sums.specs.declared.linear.Linear.{Linear};
ghost use Rattle.pb_sums.specs.declared.linear.Relation.TheVariants.{AtLeast, Equal};
ghost use Rattle.pb_normal.specs.declared.side.Side.{Side};
ghost use Rattle.pb_normal.specs.meaning.Form.{Form, Holds, Follows, FollowsBoth, IsOpposite, IsOrdered, IsOver, AgreeOn, coefficient, size, total};
ghost use Rattle.pb_normal.specs.meaning.Names.{AreDistinct, HasNames, has_name, number_in, with_names};
ghost use Rattle.pb_normal.specs.meaning.Rules.{IsSum, multiplied, divided, saturated, weakened, axiom_on, negation_of, IsContradiction};
ghost use Rattle.pb_normal.specs.meaning.Written.{names_of, IsFormOf, IsSideOf, SameSolutions, SameAsForm, SameAsForms, linear_of};

/// If its operands hold, the result of a rule holds. A negation holds if and only if the form, of
/// degree at least 1, does not. A contradiction holds nowhere.
#[tactic(auto, using(crate::proofs::Rulesets::sound))]
pub fn rules_are_sound()
    ensures sum { (f g r : Form) → IsSum f g r → FollowsBoth f g r }
    ensures product { (k : ℕ) (f : Form) → Follows f (multiplied k f) }
    ensures quotient { (k : ℕ) (f : Form) → 0 < k → Follows f (divided k f) }
    ensures saturation { (f : Form) → Follows f (saturated f) }
    ensures weakening { (x : ℕ) (f : Form) → Follows f (weakened x f) }
    ensures axiom { (x : ℕ) (negated : Bool) (a : ℕ → Bool) → Holds a (axiom_on x negated) }
    ensures negation { (f : Form) → 1 ≤ f.degree → IsOpposite f (negation_of f) }
    ensures contradiction { (f : Form) (a : ℕ → Bool) → IsContradiction f → ¬ Holds a f }
{}

/// A form is determined by its coefficients and its degree. Two forms have only one sum, and a
/// written sum with a degree has only one form.
#[tactic(auto, using(crate::proofs::Rulesets::forms))]
pub fn forms_are_unique()
    ensures coefficients { (r s : Form) → IsOrdered r → IsOrdered s →
        ((x : ℕ) → coefficient r x ≡ coefficient s x) → r.degree ≡ s.degree → r ≡ s }
    ensures sum { (f g r s : Form) → IsSum f g r → IsSum f g s → r ≡ s }
    ensures written { (names : List (List ℕ)) (ts : List Term) (d : ℤ) (r s : Form) →
        IsFormOf names ts d r → IsFormOf names ts d s → r ≡ s }
{}

/// The form of a side of a constraint holds if and only if that side does. So a constraint `>=`
/// holds if and only if its form does, and a constraint `=` if and only if both of its forms do. A
/// form remains the form of its constraint if more names appear, and it is written in the same way.
/// Written with its names, it is a constraint that holds if and only if the form does.
pub fn written_forms_are_exact()
    ensures same { (names : List (List ℕ)) (side : Side) (linear : Linear) (r : Form) →
        AreDistinct names → HasNames names (names_of linear.terms) →
        IsSideOf names side linear r → SameSolutions names side linear r }
    ensures at_least { (names : List (List ℕ)) (linear : Linear) (r : Form) →
        AreDistinct names → HasNames names (names_of linear.terms) →
        IsSideOf names Side.AtLeast linear r → linear.relation ≡ AtLeast →
        SameAsForm names linear r }
    ensures equal { (names : List (List ℕ)) (linear : Linear) (r s : Form) →
        AreDistinct names → HasNames names (names_of linear.terms) →
        IsSideOf names Side.AtLeast linear r → IsSideOf names Side.AtMost linear s →
        linear.relation ≡ Equal →
        SameAsForms names linear r s }
    ensures more_names { (names more : List (List ℕ)) (side : Side) (linear : Linear) (r : Form) →
        AreDistinct (names ++ more) → HasNames names (names_of linear.terms) →
        IsSideOf names side linear r → IsSideOf (names ++ more) side linear r }
    ensures written { (names : List (List ℕ)) (f : Form) → SameAsForm names (linear_of names f) f }
    ensures written_alike { (names more : List (List ℕ)) (f : Form) →
        All (λ t. t.variable < length names) f.terms →
        linear_of (names ++ more) f ≡ linear_of names f }
{}

/// After other names appear, the names before them have the same numbers, and each of the others
/// has a number. If the names were distinct, they still are. If each of the others had a number, no
/// name is new.
#[tactic(auto, using(crate::proofs::Rulesets::numbers))]
pub fn names_keep_their_numbers()
    ensures prefix { (names others : List (List ℕ)) → (more : List (List ℕ)) ×
        (with_names names others ≡ names ++ more) }
    ensures named { (names others : List (List ℕ)) → HasNames (with_names names others) others }
    ensures distinct { (names others : List (List ℕ)) → AreDistinct names →
        AreDistinct (with_names names others) }
    ensures present { (names others : List (List ℕ)) → HasNames names others →
        with_names names others ≡ names }
    ensures in_turn { (names others further : List (List ℕ)) →
        with_names names (others ++ further) ≡ with_names (with_names names others) further }
{}

/// The result of a rule has no other variables than its operands have.
pub fn rules_keep_variables()
    ensures sum { (p : ℕ → Bool) (f g r : Form) → IsSum f g r → IsOver p f → IsOver p g →
        IsOver p r }
    ensures product { (p : ℕ → Bool) (k : ℕ) (f : Form) → IsOver p f → IsOver p (multiplied k f) }
    ensures quotient { (p : ℕ → Bool) (k : ℕ) (f : Form) → IsOver p f → IsOver p (divided k f) }
    ensures saturation { (p : ℕ → Bool) (f : Form) → IsOver p f → IsOver p (saturated f) }
    ensures weakening { (p : ℕ → Bool) (x : ℕ) (f : Form) → IsOver p f → IsOver p (weakened x f) }
    ensures negation { (p : ℕ → Bool) (f : Form) → IsOver p f → IsOver p (negation_of f) }
    ensures below { (n : ℕ) (f : Form) →
        IsOver (λ v. nat_lt v n) f ↔ All (λ t. t.variable < n) f.terms }
{}

/// Whether a form holds depends on the values of its variables only. The coefficients of any choice
/// of literals add up to at most those of all literals.
#[tactic(auto, using(crate::proofs::Rulesets::forms))]
pub fn forms_hold_by_their_variables()
    ensures alike { (a b : ℕ → Bool) (f : Form) → AgreeOn a b f → Holds a f ↔ Holds b f }
    ensures part { (p : ℕ → Bool → Bool) (f : Form) → total p f.terms ≤ size f }
{}

/// A name's number is its position, and the only one if the names are distinct. It is the same if
/// more names follow.
#[tactic(auto, using(crate::proofs::Rulesets::places))]
pub fn numbers_are_places()
    ensures found { (names : List (List ℕ)) (name : List ℕ) → has_name names name ≡ true →
        slice_get names (number_in names name) ≡ Some name }
    ensures below { (names : List (List ℕ)) (name : List ℕ) → has_name names name ≡ true →
        number_in names name < length names }
    ensures single { (names : List (List ℕ)) (x : ℕ) (name : List ℕ) → AreDistinct names →
        slice_get names x ≡ Some name → number_in names name ≡ x }
    ensures stays { (names more : List (List ℕ)) (name : List ℕ) → has_name names name ≡ true →
        number_in (names ++ more) name ≡ number_in names name }
    ensures remains { (names more : List (List ℕ)) (name : List ℕ) → has_name names name ≡ true →
        has_name (names ++ more) name ≡ true }
    ensures all_remain { (names more others : List (List ℕ)) → HasNames names others →
        HasNames (names ++ more) others }
{}
