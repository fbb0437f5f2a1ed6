ghost use Rattle.std.specs.Prelude.{◌≡◌, IfOk};
ghost use Rattle.rp_stops.specs.After.{mbr_after as mbr_behind, seen_after};

use rp_base::{Mbr, Memory, Origin, Plan, Seen};
use std::alloc::Global;

/// What is seen of an image of which this was seen, once a plan was carried out on it: the goal, by its primary copy, with
/// both copies the same. The MBR of another table stays, and any other is right.
pub fn after(alloc: Global, seen: &Seen, plan: &Plan) -> Result<Seen, Memory>
    ensures { IfOk result (λ later. later ≡ seen_after seen.now plan.now) }
{
    let shown = plan.goal.copy(alloc)?;
    Ok(Seen {
        sectors: plan.target,
        shown,
        origin: Origin::Primary,
        primary_same: true,
        backup_same: true,
        mbr: mbr_after(seen.mbr),
    })
}

// The state of the MBR then.
fn mbr_after(mbr: Mbr) -> Mbr
    ensures { result ≡ mbr_behind mbr }
{
    match mbr {
        Mbr::Foreign => Mbr::Foreign,
        Mbr::Same | Mbr::Differs => Mbr::Same,
    }
}
