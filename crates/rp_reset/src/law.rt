//! Laws of a factory reset.

ghost use Rattle.std.specs.Prelude.{◌≡◌, ◌≢◌, ℕ, All, Contains, List, Some, Ok, false, true, slice_get};
ghost use Rattle.rp_base.specs.Plan.{Fits, IsWellFormed, Noted, noted_of};
ghost use Rattle.rp_base.specs.Table.{TableFits};
ghost use Rattle.rp_base.specs.declared.plan.Change.{Change};
ghost use Rattle.rp_base.specs.declared.plan.Plan.{Plan};
ghost use Rattle.rp_base.specs.declared.seen.Seen.{Seen};
ghost use Rattle.rp_base.specs.declared.table.Row.{Row};
ghost use Rattle.rp_defs.specs.declared.definition.Definition.{Definition};
ghost use Rattle.rp_plan.specs.Plannable.{IsPlannable};
ghost use Rattle.rp_sizes.specs.Needs.{matched_of};
ghost use Rattle.rp_stops.specs.After.{seen_after};
ghost use Rattle.rp_reset.specs.Reset.{is_reset, reset};

/// The plan of a reset is well formed for what was seen, and fits it, whichever copy was read. It keeps the image's length,
/// each of its rows is the same, and its numbers are within their fields where those of the shown table are.
pub fn resets_fit()
    ensures fits { (seen : Seen) (defs : List Definition) (plan : Plan) → IsPlannable seen → reset seen defs ≡ Ok (Some plan)
        → Fits seen plan }
    ensures len { (seen : Seen) (defs : List Definition) (plan : Plan) → reset seen defs ≡ Ok (Some plan) → plan.target ≡ seen.sectors }
    ensures same { (seen : Seen) (defs : List Definition) (plan : Plan) → reset seen defs ≡ Ok (Some plan)
        → All (λ (noted : Noted). noted.1.change ≡ Change.Same) (noted_of plan) }
    ensures writes { (seen : Seen) (defs : List Definition) (plan : Plan) → TableFits seen.shown → reset seen defs ≡ Ok (Some plan)
        → TableFits plan.goal }
{}

/// What is seen of an image on which a plan was carried out can be planned for again.
pub fn what_is_left_can_be_planned()
    ensures { (seen : Seen) (plan : Plan) → IsWellFormed seen plan → IsPlannable (seen_after seen plan) }
{}

/// Each row of the reset table is one of the shown table's. Rows of other definitions stay, and foreign ones; of a definition
/// that is to be reset none does.
pub fn other_rows_stay()
    ensures old { (seen : Seen) (defs : List Definition) (plan : Plan) → reset seen defs ≡ Ok (Some plan)
        → All (Contains seen.shown.rows) plan.goal.rows }
    ensures stay { (seen : Seen) (defs : List Definition) (plan : Plan) (place : ℕ) (row : Row) → reset seen defs ≡ Ok (Some plan)
        → slice_get seen.shown.rows place ≡ Some row → is_reset (matched_of seen.shown defs) defs place ≡ false
        → Contains plan.goal.rows row }
    ensures gone { (seen : Seen) (defs : List Definition) (plan : Plan) (place : ℕ) (row : Row) → IsPlannable seen
        → reset seen defs ≡ Ok (Some plan) → slice_get seen.shown.rows place ≡ Some row
        → is_reset (matched_of seen.shown defs) defs place ≡ true → All (λ (left : Row). left.slot ≢ row.slot) plan.goal.rows }
{}
