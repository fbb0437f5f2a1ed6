//! Laws of the share, for what is defined by it.

ghost use Rattle.std.specs.Prelude.{◌≡◌, ◌≤◌, ◌<◌, ◌+◌, ◌-◌, ◌⊎◌, ℕ, List, [], ◌∷◌, All, length, max, sum, sum_by, slice_index};
ghost use Rattle.rp_share.specs.declared.item.Item.{Item};
ghost use Rattle.rp_share.specs.Again.{IsAgain, IsPart, IsSpanAt, asked};
ghost use Rattle.rp_share.specs.Share.{IsFair, IsFull, IsShare, OneShare, item_at};
ghost use Rattle.rp_share.specs.Value.{shares_of};

/// The value is a share, where the limits are in order and the minima fit.
pub fn value_is_a_share()
    ensures { (span : ℕ) (items : List Item) → All (λ item. item.min ≤ item.max) items → sum_by (λ item. item.min) items ≤ span
        → IsShare span items (shares_of span items) }
{}

/// No two shares of a span among the same items differ.
pub fn there_is_one_share()
    ensures { (span : ℕ) (items : List Item) → OneShare span items }
{}

/// Items from a place on, each with its share for its least or with less, have these shares over what they have together;
/// over more too, where each item with weight has its maximum.
pub fn part_of_a_share_is_a_share()
    ensures { (span : ℕ) (items : List Item) (shares : List ℕ) (at : ℕ) (again : List Item) (part : List ℕ)
        → IsFair items shares → IsPart items shares at again part → (sum part ≡ span) ⊎ ((sum part < span) × IsFull items shares)
        → IsShare span again part }
{}

/// An item and the one behind it, as a partition and its padding, keep their shares when they alone divide what they have.
pub fn two_share_what_they_have()
    ensures { (span : ℕ) (items : List Item) (shares : List ℕ) (at mine : ℕ) (size : Item)
        → IsShare span items shares → at + 2 ≤ length items → IsAgain (item_at items at) (slice_index shares at) size
        → IsSpanAt span items shares at mine
        → shares_of mine (size ∷ item_at items (at + 1) ∷ []) ≡ slice_index shares at ∷ slice_index shares (at + 1) ∷ [] }
{}

/// Behind the first two items the others share what these leave.
pub fn others_share_the_rest()
    ensures { (span : ℕ) (first second : Item) (items : List Item) (x y : ℕ) (shares : List ℕ)
        → IsShare span (first ∷ second ∷ items) (x ∷ y ∷ shares) → IsShare (span - (x + y)) items shares }
{}

/// What a partition asks for once it has its share: of one that was there and could grow, of a new one, whose own minimum
/// may be above its definition's, and of a new one of an exact size.
pub fn what_is_asked_again()
    ensures grown { (has least most weight share : ℕ) → least ≤ most → max has least ≤ share → share ≤ max has most
        → IsAgain (asked has least most weight) share (asked share least most weight) }
    ensures new { (own least most weight share : ℕ) → least ≤ own → own ≤ share → share ≤ most
        → IsAgain (record { min = own; max = most; weight = weight }) share (asked share least most weight) }
    ensures exact { (own least most weight share : ℕ) → least ≤ own → share ≡ own → weight ≡ 0
        → IsAgain (record { min = own; max = own; weight = 0 }) share (asked share least most weight) }
{}
