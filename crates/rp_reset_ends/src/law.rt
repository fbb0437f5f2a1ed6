//! What `apply` with a factory reset promises of an image, as contracts of functions that do nothing.

ghost use Rattle.std.specs.Prelude.{◌≡◌, ◌≤◌, ◌%◌, ◌^◌, ◌++◌, ◌*◌, List, [], ◌∷◌, Ok, Err};
ghost use Rattle.rp_apply.specs.Called.{AreCallsFor};
ghost use Rattle.rp_apply_command.specs.Applies.{CarriesOut, Outcome, PlanFits};
ghost use Rattle.rp_base.specs.Geometry.{IsSector};
ghost use Rattle.rp_base.specs.declared.plan.Plan.{Plan};
ghost use Rattle.rp_base.specs.declared.seen.Seen.{Seen};
ghost use Rattle.rp_defs.specs.WellFormed.{IsWellFormed};
ghost use Rattle.rp_defs.specs.declared.definition.Definitions.{Definitions};
ghost use Rattle.rp_disk.specs.Made.{dones};
ghost use Rattle.rp_disk.specs.declared.call.Call.{Call};
ghost use Rattle.rp_io.specs.declared.stored.Stored.{Stored};
ghost use Rattle.rp_outcome.specs.Device.{Device};
ghost use Rattle.rp_outcome.specs.Refusals.{Refusal};
ghost use Rattle.rp_outcome.specs.Store.{Store};
ghost use Rattle.rp_planned.specs.Planning.{with_seen};
ghost use Rattle.rp_planned.specs.declared.request.Request.{Request};
ghost use Rattle.rp_reset_ends.specs.Ends.{AreBegun, AreCarriedOut};
ghost use Rattle.rp_reset_ends.specs.Planned.{PlansWithReset, behind_reset};
ghost use Rattle.rp_steps.specs.Calls.{calls as calls_for};
ghost use Rattle.rp_steps.specs.Contents.{Sources};

/// The calls of a plan's steps are calls for it, whatever its sources hold.
pub fn calls_by_any_sources_carry_out_plans()
    ensures { (plan : Plan) (sources : Sources) (seen : Seen) → AreCallsFor seen plan (calls_for plan seen sources) }
{}

/// Let a run have read the definitions and synced the disk, and then planned a reset and the goal for what it leaves. Where the reset
/// is broken off, the calls made behind the sync are the first of those of both plans, and what a stop leaves at any moment is safe by
/// them. So it is where the reset is done and the plan behind it is carried out, or the first of its calls. Where that is done too,
/// the image has the goal, and a stop leaves no other.
pub fn a_run_with_a_reset_ends()
    ensures broken_off { (request : Request) (definitions : Definitions) (disk opened read later : Device)
        (sources asked drained : Store (List Stored)) (seen : Seen) (reset plan : Plan) (refusal : Refusal)
        → IsSector request.sector → request.size % 4096 ≡ 0 → request.size ≤ 2 ^ 44 → IsWellFormed definitions.list
        → PlanFits (behind_reset seen reset plan) → opened.calls ≡ disk.calls ++ dones (Call.Sync ∷ [])
        → PlansWithReset request definitions.list opened read sources asked seen reset plan
        → CarriesOut definitions (with_seen seen reset) read later asked drained (Err refusal)
        → AreBegun request definitions.list disk later sources seen reset plan }
    ensures some { (request : Request) (definitions : Definitions) (disk opened read between later : Device)
        (sources asked left drained : Store (List Stored)) (seen : Seen) (reset plan : Plan) (answer : Outcome)
        → IsSector request.sector → request.size % 4096 ≡ 0 → request.size ≤ 2 ^ 44 → IsWellFormed definitions.list
        → PlanFits (behind_reset seen reset plan) → opened.calls ≡ disk.calls ++ dones (Call.Sync ∷ [])
        → PlansWithReset request definitions.list opened read sources asked seen reset plan
        → CarriesOut definitions (with_seen seen reset) read between asked left (Ok tt)
        → CarriesOut definitions (behind_reset seen reset plan) between later left drained answer
        → AreBegun request definitions.list disk later sources seen reset plan }
    ensures all { (request : Request) (definitions : Definitions) (disk opened read between later : Device)
        (sources asked left drained : Store (List Stored)) (seen : Seen) (reset plan : Plan)
        → IsSector request.sector → request.size % 4096 ≡ 0 → request.size ≤ 2 ^ 44 → IsWellFormed definitions.list
        → PlanFits (behind_reset seen reset plan) → opened.calls ≡ disk.calls ++ dones (Call.Sync ∷ [])
        → PlansWithReset request definitions.list opened read sources asked seen reset plan
        → CarriesOut definitions (with_seen seen reset) read between asked left (Ok tt)
        → CarriesOut definitions (behind_reset seen reset plan) between later left drained (Ok tt)
        → AreCarriedOut request definitions.list disk later sources seen reset plan }
{}
