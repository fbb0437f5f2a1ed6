ghost use Rattle.std.specs.Prelude.{◌≡◌, ◌∷◌, ◌++◌, [], List, ℕ, length};
ghost use Rattle.rp_disk.specs.Device.{AllBehind, CanHave, Device, Earlier, with_failed};
ghost use Rattle.rp_disk.specs.History.{MayLeave, held};
ghost use Rattle.rp_disk.specs.Made.{Broke, Past, history_of};
ghost use Rattle.rp_disk.specs.MemDisk.{own, device_of};
ghost use Rattle.rp_disk.specs.Stops.{Agrees};
ghost use Rattle.rp_disk.specs.declared.call.Call.{Call};
ghost use Rattle.rp_disk.specs.declared.mem.MemDisk.{MemDisk};

/// A disk in memory can have its own past: the bytes that it had at first, and each call that failed changed nothing. So
/// whatever is known of a disk by what it noted holds of a disk in memory.
pub fn own_bytes_law()
    ensures { (disk : MemDisk) → CanHave (own disk) (device_of disk) }
{}

/// What was noted before is noted later, and a past that a disk can have later, it could have before: so what is known
/// stays known.
pub fn earlier_law()
    ensures then { (before mid now : Device) → Earlier before mid → Earlier mid now → Earlier before now }
    ensures can { (past : Past) (before now : Device) → Earlier before now → CanHave past now → CanHave past before }
{}

/// A past that a disk can have shows now what a stop now may leave.
pub fn past_law()
    ensures { (past : Past) (device : Device) → CanHave past device
        → MayLeave (history_of past device.calls) (held (history_of past device.calls)) }
{}

/// A call that failed makes nothing impossible: for each past that a disk could have before, and each image that a stop in
/// the midst of the call may leave of the bytes shown then, there is a past that it can have now, in which that image was
/// left. What is read later tells which.
pub fn failed_call_law()
    ensures { (past : Past) (device : Device) (call : Call) (after : List ℕ) → CanHave past device
        → AllBehind (length device.calls) device.answers → Agrees (held (history_of past device.calls)) (call ∷ []) after
        → (next : Past) × CanHave next (with_failed device call) × (history_of next device.calls ≡ history_of past device.calls)
        × (held (history_of next (device.calls ++ Broke call ∷ [])) ≡ after) }
{}
