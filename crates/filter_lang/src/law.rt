//! What the refusals of the grammar mean.

ghost use Rattle.std.specs.Prelude.{◌≡◌, ℕ, List, ◌∷◌, ◌++◌, Some, Ok, Err};
ghost use Rattle.filter_lang.specs.Grammar.{Place, Next, stop, next, read, filter_begin, filter, place_behind, IsRefused};
ghost use Rattle.filter_lang.specs.Shape.{Shape};
ghost use Rattle.filter_lang.specs.Tokens.{Placed, tokens};
ghost use Rattle.filter_lang.specs.declared.error.FilterError.{FilterError};

/// Each refusal of a text is made at one of its tokens, and that is the first, from the left, with
/// which no filter goes on: some filter goes on with the tokens before it, and none with these and
/// the token, which is refused at its offset whatever follows.
pub fn first_refusal()
    ensures goes_on { (before : List Placed) (p : Place) → place_behind before filter_begin ≡ Some p
        → (after : List Placed) × (s : Shape) × (read (before ++ after) filter_begin ≡ Ok s) }
    ensures none_goes_on { (before : List Placed) (p : Place) (t : Placed) (refusal : ℕ → FilterError)
        → place_behind before filter_begin ≡ Some p → next p t.token ≡ stop refusal
        → (after : List Placed) → read (before ++ t ∷ after) filter_begin ≡ Err (refusal t.at) }
    ensures refused { (text : List ℕ) (e : FilterError) → filter text ≡ Err e
        → IsRefused (tokens text) filter_begin e }
{}
