//! Tables that can be written, and tables in place.

ghost use Rattle.std.specs.Prelude.{◌^◌, ◌∷◌, [], replicate};
ghost use Rattle.rp_base.specs.Table.{IsInPlace, IsWritable};
ghost use Rattle.rp_rows_plans.specs.Values.{entry, guid, hash, old, payload, table, table_with};

/// Of the sectors, the entries and the bounds; and of each row.
pub fn what_can_be_written()
    ensures met { IsWritable table }
    ensures met_in_large_sectors { IsWritable (record table { sector = 4096; last = 131031 }) }

    ensures sector { ¬ IsWritable (record table { sector = 1024 }) }
    ensures few_entries { ¬ IsWritable (record table { entries = 127 }) }
    ensures many_entries { ¬ IsWritable (record table { entries = 1025 }) }
    ensures first { ¬ IsWritable (record table { sector = 4096; first = 2047; last = 131031 }) }
    ensures last { ¬ IsWritable (record table { sector = 4096 }) }

    ensures slot { ¬ IsWritable (table_with (record old { slot = 128 } ∷ [])) }
    ensures unused { ¬ IsWritable (table_with (record old { kind = guid 0 } ∷ [])) }
    ensures empty { ¬ IsWritable (table_with (record old { size = 0 } ∷ [])) }
    ensures far { ¬ IsWritable (table_with (record old { start = 2 ^ 35 } ∷ [])) }
    ensures start { ¬ IsWritable (record table { sector = 4096; last = 131031; rows = record old { start = 2049 } ∷ [] }) }
    ensures size { ¬ IsWritable (record table { sector = 4096; last = 131031; rows = record old { size = 79999 } ∷ [] }) }
    ensures falling { ¬ IsWritable (table_with (payload ∷ old ∷ [])) }
    ensures twice { ¬ IsWritable (table_with (old ∷ record payload { slot = 0 } ∷ [])) }
{}

/// Of the bounds, and of rows in them.
pub fn what_is_in_place()
    ensures met { IsInPlace 131072 table }
    ensures least { IsInPlace 131072 (record table { first = 34; rows = entry 0 1 34 131005 ∷ [] }) }

    ensures first { ¬ IsInPlace 131072 (record table { first = 33 }) }
    ensures last { ¬ IsInPlace 131072 (record table { last = 131039 }) }
    ensures bounds { ¬ IsInPlace 131072 (record table { last = 2047; rows = [] }) }
    ensures sized { ¬ IsInPlace 131072 (table_with (record old { size = 0 } ∷ [])) }
    ensures before { ¬ IsInPlace 131072 (table_with (record old { start = 2047 } ∷ [])) }
    ensures behind { ¬ IsInPlace 131072 (table_with (record old { size = 128992 } ∷ [])) }
    ensures apart { ¬ IsInPlace 131072 (table_with (old ∷ record payload { start = 82047 } ∷ hash ∷ [])) }
{}
