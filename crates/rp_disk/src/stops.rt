ghost use Rattle.std.specs.Prelude.{List, ◌++◌, ℕ, ◌≡◌, [], ◌∷◌, ◌⊎◌, ◌↔◌, ◌+◌, ◌≤◌, length, take, drop};
ghost use Rattle.rp_disk.specs.Stops.{Agrees, IsFrontOf, Leaves};
ghost use Rattle.rp_disk.specs.History.{History, Failed, IsLawful, IsSettled, LeftSince, MayLeave, did, made_since, moment, held};
ghost use Rattle.rp_disk.specs.Made.{Made, dones};
ghost use Rattle.rp_disk.specs.Runs.{AtAnyMoment, AtAnyMomentBehindSync, EndsSettled, MadeFirst, Went};
ghost use Rattle.rp_disk.specs.declared.call.Call.{Call};

/// The law of a disk. Let nothing be pending at a start, and let each call since but the last have answered Ok. Then
/// each image that a stop since might have left is one that a stop may leave of the bytes shown at the start and the
/// calls made by then, which are the first of the calls since. A sync that failed at the end is none of these.
pub fn stops_law()
    ensures { (start now : History) (calls : List Call) → IsSettled start → Went start calls now
        → (made : List Call) (image : List ℕ) → LeftSince now (moment start) made image
        → IsFrontOf made calls × Leaves (held start) made image }
{}

/// The law for calls that begin with a sync, at any start, where something may be pending. Each image that a stop since
/// might have left could have been left at the start already, or that sync was done and the image is one that a stop
/// may leave of the bytes shown at the start and the calls made by then behind it.
pub fn opening_law()
    ensures { (start now : History) (calls made : List Call) → IsFrontOf made (Call.Sync ∷ calls) → Went start made now
        → (by_then : List Call) (image : List ℕ) → LeftSince now (moment start) by_then image
        → MayLeave start image ⊎ ((more : List Call) × (by_then ≡ Call.Sync ∷ more) × IsFrontOf more calls
        × Leaves (held start) more image) }
{}

/// What a stop may leave of one call: of a write any bytes in its range, and the others as they were; of a sync the
/// bytes as they were; of a change of length the former bytes, or the new length with any bytes past the former end.
pub fn one_call_law()
    ensures write { (image new : List ℕ) (at : ℕ) (bytes : List ℕ) → Agrees image (Call.Write at bytes ∷ []) new
        ↔ ((length new ≡ length image) × (take at new ≡ take at image) × (drop (at + length bytes) new ≡ drop (at + length bytes) image)) }
    ensures sync { (image new : List ℕ) → Agrees image (Call.Sync ∷ []) new ↔ (new ≡ image) }
    ensures set_len { (image new : List ℕ) (len : ℕ) → Agrees image (Call.SetLen len ∷ []) new
        ↔ ((new ≡ image) ⊎ ((length new ≡ len) × (take (length image) new ≡ take len image))) }
{}

/// What a stop since a moment might have left counts what a stop now may leave, and what it might have left before each
/// call made since.
pub fn moments_law()
    ensures now { (history : History) (since : ℕ) (image : List ℕ) → MayLeave history image
        → LeftSince history since (made_since history since) image }
    ensures did { (history : History) (call : Call) (since : ℕ) (made : List Call) (image : List ℕ) → since ≤ moment history
        → LeftSince history since made image → LeftSince (did history call) since made image }
    ensures failed { (history : History) (call : Call) (after : List ℕ) (since : ℕ) (made : List Call) (image : List ℕ)
        → since ≤ moment history
        → LeftSince history since made image → LeftSince (Failed history call after) since made image }
{}

/// After a sync that answered Ok nothing is pending, and then a stop leaves the bytes shown and nothing else.
pub fn settled_law()
    ensures synced { (history : History) → IsSettled (did history Call.Sync) }
    ensures left { (history : History) (image : List ℕ) → IsSettled history → MayLeave history image → image ≡ held history }
{}

/// What a lawful disk shows is among what a stop now may leave.
pub fn shown_law()
    ensures { (history : History) → IsLawful history → MayLeave history (held history) }
{}

/// The law for callers: where since the old calls the first of the planned were made, at any moment a stop leaves what
/// it may leave of those made by then. Nothing is pending at the start; or the calls begin with a sync, and then
/// something may be. Where they end with a sync and were all done whole, nothing is pending at the end.
pub fn any_moment_law()
    ensures settled { (old new : List Made) (plan : List Call) → MadeFirst old plan new → AtAnyMoment old plan new }
    ensures behind_sync { (old new : List Made) (plan : List Call) → MadeFirst old (Call.Sync ∷ plan) new
        → AtAnyMomentBehindSync old plan new }
    ensures end { (old new : List Made) (calls : List Call) → new ≡ old ++ dones (calls ++ Call.Sync ∷ [])
        → EndsSettled old (calls ++ Call.Sync ∷ []) new }
{}
