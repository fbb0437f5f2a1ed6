ghost use Rattle.rp_base.specs.Geometry.{IsSector};
ghost use Rattle.rp_dissect_command.specs.Dissects.{Dissects, DissectsBy, TellsFault};
ghost use Rattle.rp_outcome.specs.Output.{output};

use rp_base::Memory;
use rp_denial::{deny, refuse_policy};
use rp_disk::Disk;
use rp_dissect::{DissectFault, dissect_at};
use rp_io::Sink;
use rp_outcome::{Refusal, finish, refuse, table_refusal};
use rp_policy::{Policy, parse};
use rp_types::Arch;
use rp_verdict_text::verdict_text;
use std::alloc::Global;

/// Prints what the policy of a text says of the image on a disk with sectors of so many bytes, as text or as JSON, and
/// answers the exit status.
///
/// The text is read before the disk is asked, and the disk is read alone.
pub fn dissect<D: Disk, K: Sink>(
    alloc: Global,
    text: &str,
    arch: Arch,
    sector: u32,
    json: bool,
    disk: &mut D,
    out: &mut K,
) -> u8
    requires { IsSector sector }
    ensures { Dissects text.now arch sector json
        (D.device disk.old) (D.device disk.new)
        (output K.told K.faults out.old) (output K.told K.faults out.new) result }
{
    match parse(text) {
        Ok(policy) => dissect_by(alloc, &policy, arch, sector, json, disk, out),
        Err(fault) => refuse_policy(out, fault),
    }
}

fn dissect_by<D: Disk, K: Sink>(
    alloc: Global,
    policy: &Policy,
    arch: Arch,
    sector: u32,
    json: bool,
    disk: &mut D,
    out: &mut K,
) -> u8
    requires { IsSector sector }
    ensures { DissectsBy policy.now arch sector json
        (D.device disk.old) (D.device disk.new)
        (output K.told K.faults out.old) (output K.told K.faults out.new) result }
{
    let verdicts = match dissect_at(alloc, disk, arch, policy, sector) {
        Ok(verdicts) => verdicts,
        Err(fault) => return refuse_fault(out, fault),
    };
    match verdict_text(alloc, json, &verdicts) {
        Ok(text) => finish(out, text.as_str()),
        Err(Memory) => refuse(out, &Refusal::memory()),
    }
}

// Ends with the line of a fault.
fn refuse_fault<K: Sink>(out: &mut K, fault: DissectFault) -> u8
    ensures { TellsFault (output K.told K.faults out.old) (output K.told K.faults out.new) result fault }
{
    match fault {
        DissectFault::Disk => refuse(out, &Refusal::disk()),
        DissectFault::Table(fault) => refuse(out, &table_refusal(fault)),
        DissectFault::Denied { designator, rule } => deny(out, designator, rule),
        DissectFault::Memory => refuse(out, &Refusal::memory()),
    }
}
