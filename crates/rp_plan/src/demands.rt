//! What the faults of the parts demand, in bytes.

ghost use Rattle.std.specs.Prelude.{◌≡◌};
ghost use Rattle.rp_plan.specs.Demands.{IsSmall};
ghost use Rattle.rp_plan.specs.Goal.{area_demand as area_demand_of, ident_demand as ident_demand_of, place_demand as place_demand_of};

use rp_areas::AreaFault;
use rp_base::GRAIN;
use rp_demand::Demand;
use rp_ident::IdentFault;
use rp_place::PlaceFault;

pub(crate) fn area_demand(fault: AreaFault) -> Demand
    ensures { result ≡ area_demand_of fault }
{
    match fault {
        AreaFault::Existing { file, need, have } => Demand::Existing { file, need, have },
        AreaFault::Memory => Demand::Memory,
    }
}

pub(crate) fn place_demand(fault: PlaceFault) -> Demand
    requires { IsSmall fault }
    ensures { result ≡ place_demand_of fault }
{
    match fault {
        PlaceFault::Room {
            file,
            need,
            largest,
        } => Demand::Room {
            file,
            need: GRAIN * need,
            largest: GRAIN * largest,
        },
        PlaceFault::Slot { file } => Demand::Slot { file },
        PlaceFault::Memory => Demand::Memory,
    }
}

pub(crate) fn ident_demand(fault: IdentFault) -> Demand
    ensures { result ≡ ident_demand_of fault }
{
    match fault {
        IdentFault::TakenIdentifier { file } => Demand::TakenIdentifier { file },
        IdentFault::NoIdentifier { file } => Demand::NoIdentifier { file },
    }
}
