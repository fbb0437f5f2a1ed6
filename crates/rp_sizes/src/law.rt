//! Laws of what is asked, for what is defined by it.

ghost use Rattle.std.specs.Prelude.{◌≡◌, ◌≤◌, ◌<◌, ℕ, List, Option, Some, None, AllPairs, length, slice_get, true};
ghost use Rattle.rp_base.specs.Wants.{AreWants};
ghost use Rattle.rp_base.specs.declared.want.Want.{Want};
ghost use Rattle.rp_place.specs.declared.fit.New.{New};
ghost use Rattle.rp_defs.specs.WellFormed.{IsWellFormed};
ghost use Rattle.rp_defs.specs.declared.definition.Definition.{Definition};
ghost use Rattle.rp_sizes.specs.Needs.{is_new};
ghost use Rattle.rp_sizes.specs.News.{news_of};
ghost use Rattle.rp_sizes.specs.Sizes.{asked, asked_of, first_demand, least_of, most_of};
ghost use Rattle.rp_sizes.specs.declared.need.Fact.{Fact};

/// What is asked for definitions of which none is refused is in the bounds of wants, one for each, and a new one is no
/// larger than it may be.
pub fn what_is_asked_is_in_bounds()
    ensures wants { (matched : List (Option ℕ)) (defs : List Definition) (facts : List Fact) → IsWellFormed defs
        → first_demand matched defs facts ≡ None → AreWants (asked matched defs facts) }
    ensures one_each { (matched : List (Option ℕ)) (defs : List Definition) (facts : List Fact)
        → length (asked matched defs facts) ≡ length defs }
    ensures own { (matched : List (Option ℕ)) (defs : List Definition) (facts : List Fact) (file : ℕ) (def : Definition)
        → slice_get defs file ≡ Some def → slice_get (asked matched defs facts) file ≡ Some (asked_of matched defs facts (file, def)) }
    ensures fits { (matched : List (Option ℕ)) (defs : List Definition) (facts : List Fact) → IsWellFormed defs
        → first_demand matched defs facts ≡ None → (file : ℕ) (def : Definition) → slice_get defs file ≡ Some def
        → is_new matched file ≡ true → least_of defs facts (file, def) ≤ most_of def }
{}

/// New definitions come in the order of their files.
pub fn new_definitions_rise()
    ensures { (matched : List (Option ℕ)) (wants : List Want) (defs : List Definition)
        → AllPairs (λ (a b : New). a.file < b.file) (news_of matched wants defs) }
{}
