//! Two runs, one behind the other, as the contract of a function that does nothing.

ghost use Rattle.std.specs.Prelude.{◌≡◌, ℕ, List, [], ◌∷◌};
ghost use Rattle.rp_base.specs.declared.guid.Guid.{Guid};
ghost use Rattle.rp_base.specs.declared.plan.Plan.{Plan};
ghost use Rattle.rp_base.specs.declared.seen.Seen.{Seen};
ghost use Rattle.rp_defs.specs.declared.definition.Definition.{Definition};
ghost use Rattle.rp_disk.specs.History.{MayLeave, held};
ghost use Rattle.rp_disk.specs.Made.{Made, Past, history_of};
ghost use Rattle.rp_disk.specs.Runs.{EndsSettled};
ghost use Rattle.rp_disk.specs.declared.call.Call.{Call};
ghost use Rattle.rp_gpt.specs.declared.table_fault.Empty.{Empty};
ghost use Rattle.rp_idle.specs.Idle.{IsPlanned};
ghost use Rattle.rp_sizes.specs.declared.need.Fact.{Fact};
ghost use Rattle.rp_stops.specs.Order.{AreCallsOf};
ghost use Rattle.rp_again.specs.Again.{HasNothingLeft};

/// Let a run make a sync and all calls of a plan that is the goal for the image and drops no definition, whatever it writes into new
/// partitions. Then each image that a stop may leave is idle for the same definitions and seed, and the plan of a second run that
/// finds it, by whichever option, has no calls.
pub fn a_second_run_has_no_calls()
    ensures { (sector : ℕ) (bytes : Past) (empty : Empty) (seen : Seen) (target : ℕ) (defs : List Definition) (facts : List Fact)
        (seed : Guid) (plan : Plan) (body calls : List Call) (was now : List Made) → EndsSettled was (Call.Sync ∷ calls) now
        → IsPlanned sector (held (history_of bytes was)) empty seen target defs facts seed plan → AreCallsOf seen plan body calls
        → plan.dropped ≡ [] → (image : List ℕ) → MayLeave (history_of bytes now) image → HasNothingLeft sector image defs seed }
{}
