//! Plans that are well formed, and plans that fit what is seen of an image.

ghost use Rattle.std.specs.Prelude.{◌+◌, ◌^◌, ◌∷◌, [], None, Some, replicate};
ghost use Rattle.rp_base.specs.Plan.{Fits, IsWellFormed};
ghost use Rattle.rp_base.specs.declared.plan.Change.{Change};
ghost use Rattle.rp_base.specs.declared.plan.Role.{Role};
ghost use Rattle.rp_base.specs.declared.seen.Origin.{Origin};
ghost use Rattle.rp_rows_plans.specs.Values.{entry, guid, hash, hash_note, kept, old, payload, payload_note, plan, seen, table, table_with};
ghost use Rattle.rp_rows_plans.specs.Values.{with_notes, with_rows};

/// Of the target, the table, the notes, the sources and the pairs.
pub fn what_is_well_formed()
    ensures met { IsWellFormed seen plan }

    ensures whole { ¬ IsWellFormed (record seen { shown = record table { sector = 4096; last = 131031 } })
        (record plan { target = 131073; goal = record table { sector = 4096; last = 131031 } }) }
    ensures least { ¬ IsWellFormed (record seen { sectors = 131073 }) plan }
    ensures most { ¬ IsWellFormed seen (record plan { target = 2 ^ 35 + 8 }) }
    ensures sector { ¬ IsWellFormed (record seen { shown = record table { sector = 4096 } }) plan }
    ensures entries { ¬ IsWellFormed (record seen { shown = record table { entries = 256 } }) plan }
    ensures writable { ¬ IsWellFormed seen (with_rows (record old { kind = guid 0 } ∷ payload ∷ hash ∷ [])) }
    ensures in_place { ¬ IsWellFormed seen (with_rows (record old { size = 80001 } ∷ payload ∷ hash ∷ [])) }
    ensures notes { ¬ IsWellFormed seen (with_rows (old ∷ payload ∷ record hash { slot = 3 } ∷ [])) }
    ensures missing_notes { ¬ IsWellFormed seen (with_notes (kept ∷ [])) }
    ensures source { ¬ IsWellFormed seen (with_notes (kept ∷ record payload_note { source = Some 524289 } ∷ hash_note ∷ [])) }
    ensures file { ¬ IsWellFormed seen (with_notes (kept ∷ record payload_note { file = None } ∷ hash_note ∷ [])) }

    ensures new_pair { ¬ IsWellFormed seen (with_notes (kept ∷ record payload_note { change = Change.Same } ∷ hash_note ∷ [])) }
    ensures whole_pair { ¬ IsWellFormed seen (record plan {
      goal = table_with (old ∷ record payload { size = 1023 } ∷ hash ∷ []);
      notes = kept ∷ payload_note ∷ record hash_note { role = Role.Hash 1 127 (replicate 32 5) (guid 8) (replicate 32 7) } ∷ [];
    }) }
    ensures room { ¬ IsWellFormed seen (with_rows (old ∷ payload ∷ record hash { size = 15 } ∷ [])) }
    ensures partner { ¬ IsWellFormed seen (with_notes (kept
        ∷ record payload_note { role = Role.Data 0 (replicate 32 7) } ∷ hash_note ∷ [])) }
    ensures half { ¬ IsWellFormed seen (with_notes (kept ∷ payload_note ∷ record hash_note { role = Role.Plain } ∷ [])) }
    ensures blocks { ¬ IsWellFormed seen (with_notes (kept ∷ payload_note
        ∷ record hash_note { role = Role.Hash 1 127 (replicate 32 5) (guid 8) (replicate 32 7) } ∷ [])) }
{}

/// Of a growth, of rows that stay, and of new ones.
pub fn what_fits()
    ensures met { Fits seen plan }
    ensures row_is_left_out { Fits seen (record plan { goal = table_with (payload ∷ hash ∷ []); notes = payload_note ∷ hash_note ∷ [] }) }
    ensures grown { Fits seen (record plan { target = 262144 }) }
    ensures neither { Fits (record seen { origin = Origin.Neither }) plan }

    ensures well_formed { ¬ Fits seen (with_notes (kept ∷ [])) }
    ensures grows { ¬ Fits (record seen { origin = Origin.Backup }) (record plan { target = 262144 }) }
    ensures kind { ¬ Fits seen (with_rows (record old { kind = guid 2 } ∷ payload ∷ hash ∷ [])) }
    ensures start { ¬ Fits (record seen { shown = table_with (record old { start = 2049; size = 79999 } ∷ []) }) plan }
    ensures attrs { ¬ Fits seen (with_rows (record old { attrs = 1 } ∷ payload ∷ hash ∷ [])) }
    ensures size { ¬ Fits seen (with_rows (record old { size = 79999 } ∷ payload ∷ hash ∷ [])) }
    ensures change { ¬ Fits seen (with_notes (record kept { change = Change.New } ∷ payload_note ∷ hash_note ∷ [])) }
    ensures not_new { ¬ Fits seen (record plan {
      goal = table_with (old ∷ entry 1 2 82048 1024 ∷ []);
      notes = kept ∷ record payload_note { change = Change.Changed; role = Role.Plain } ∷ [];
    }) }
    ensures apart { ¬ Fits seen (record plan {
      goal = table_with (entry 1 2 81048 1024 ∷ []);
      notes = record payload_note { role = Role.Plain } ∷ [];
    }) }
{}
