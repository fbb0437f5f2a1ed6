ghost use Rattle.std.specs.Prelude.{◌≡◌};
ghost use Rattle.rp_outcome.specs.Demands.{demand_refusal as refusal_of, file_of as file_in};

use crate::refusal::{Refusal, Word};
use crate::status::DEMAND;
use rp_defs::Definition;
use rp_demand::Demand;

/// Of a demand of these definitions. Numbers are bytes.
pub fn demand_refusal(list: &[Definition], demand: Demand) -> Refusal<'_>
    ensures { result ≡ refusal_of list.now demand }
{
    use Word::{Absent, Number};
    let (kind, file, first, second) = match demand {
        Demand::Memory => return Refusal::memory(),
        Demand::ResetMix { file } => ("ResetMix", file, Absent, Absent),
        Demand::VerityHalf { file } => ("VerityHalf", file, Absent, Absent),
        Demand::SourceTooLarge { file, need, max } => {
            ("SourceTooLarge", file, Number(need), Number(max))
        }
        Demand::Existing { file, need, have } => ("Existing", file, Number(need), Number(have)),
        Demand::Room {
            file,
            need,
            largest,
        } => ("Room", file, Number(need), Number(largest)),
        Demand::Slot { file } => ("Slot", file, Absent, Absent),
        Demand::TakenIdentifier { file } => ("TakenIdentifier", file, Absent, Absent),
        Demand::NoIdentifier { file } => ("NoIdentifier", file, Absent, Absent),
    };
    Refusal {
        status: DEMAND,
        words: [
            Word::Text(kind),
            Word::Text(file_of(list, file)),
            first,
            second,
        ],
    }
}

// The name of the file of the definition at a place.
fn file_of(list: &[Definition], place: u16) -> &str
    ensures { result.now ≡ file_in list.now place }
{
    match list.get(usize::from(place)) {
        Some(definition) => definition.file.as_str(),
        None => "",
    }
}
