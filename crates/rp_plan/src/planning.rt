ghost use Rattle.std.specs.Prelude.{◌≡◌, ◌<◌, ◌≤◌, ◌^◌, Ok, All, IfOk, length};
ghost use Rattle.rp_base.specs.Answers.{Gives};
ghost use Rattle.rp_base.specs.Plan.{IsTarget, IsWellFormed as CanBeCarriedOut};
ghost use Rattle.rp_areas.specs.Areas.{areas_of};
ghost use Rattle.rp_areas.specs.declared.gaps.Area.{Area as Space};
ghost use Rattle.rp_defs.specs.WellFormed.{IsWellFormed};
ghost use Rattle.rp_ident.specs.Naming.{named};
ghost use Rattle.rp_place.specs.Placing.{settled};
ghost use Rattle.rp_place.specs.declared.fit.New.{New as Added};
ghost use Rattle.rp_sizes.specs.Needs.{AreFactsOn, wanted_of};
ghost use Rattle.rp_sizes.specs.News.{news_of};
ghost use Rattle.rp_plan.specs.Goal.{after, area_demand as of_area, goal, ident_demand as of_ident, place_demand as of_place, plan_among as among, plan_asked as asking, plan_placed as placing, plan_with};
ghost use Rattle.rp_plan.specs.Kept.{free_slots as slots_of, kept_files as files_kept};
ghost use Rattle.rp_plan.specs.Names.{namings_of};
ghost use Rattle.rp_plan.specs.Plannable.{IsAsked, IsGiven, IsPlannable};
ghost use Rattle.rp_plan.specs.Rows.{last_of as last_for, rows_laid as rows_laid_out, table_laid};

use crate::demands::{area_demand, ident_demand, place_demand};
use crate::kept::{dropped_files, first_free, free_slots, kept_files};
use crate::names::namings;
use crate::notes::{add_notes, old_notes};
use crate::rows::rows_laid;
use rp_areas::{Area, areas, assign};
use rp_base::{Guid, List, Plan, Seen, Table, Want, sector_units, usable_end};
use rp_defs::Definition;
use rp_demand::Demand;
use rp_ident::name_rows;
use rp_layout::{Spot, lay_out};
use rp_place::{New, Placed, settle};
use rp_sizes::{Fact, asked, first_demand, kinds, news};
use std::alloc::Global;

/// What is to become of an image of which this was seen, by these definitions: its length will be `target` units of 512
/// bytes. `facts` are those on the sources that `wanted` lists for the shown table, and identifiers are derived from the
/// seed.
///
/// Old rows keep their slot, type, start and attributes, and never shrink. New ones stand in free areas, in the slots
/// behind the highest used one. Or else it answers the first demand, for the least file.
pub fn plan(
    alloc: Global,
    seen: &Seen,
    target: u64,
    defs: &[Definition],
    facts: &[Fact],
    seed: Guid,
) -> Result<Plan, Demand>
    requires seen { IsPlannable seen.now }
    requires target { IsTarget seen.now.shown.sector seen.now.sectors target }
    requires defs { IsWellFormed defs.now }
    requires facts { AreFactsOn (wanted_of seen.now.shown defs.now) facts.now }
    ensures plan { Gives Demand.Memory (goal seen.now target defs.now facts.now seed) result }
    ensures well_formed { IfOk result (CanBeCarriedOut seen.now) }
{
    let kinds = kinds(alloc, defs)?;
    let list = assign(alloc, &seen.shown, kinds.as_slice())?;
    let matched = list.as_slice();
    if let Some(demand) = first_demand(matched, defs, facts) {
        return Err(demand);
    }
    let wants = asked(alloc, matched, defs, facts)?;
    plan_asked(
        alloc,
        seen,
        target,
        defs,
        facts,
        seed,
        matched,
        wants.as_slice(),
    )
}

// The plan, from what is asked for.
fn plan_asked(
    alloc: Global,
    seen: &Seen,
    target: u64,
    defs: &[Definition],
    facts: &[Fact],
    seed: Guid,
    matched: &[Option<u16>],
    wants: &[Want],
) -> Result<Plan, Demand>
    requires asked { IsAsked seen.now target defs.now facts.now matched.now wants.now }
    ensures { Gives Demand.Memory (asking seen.now target defs.now facts.now seed wants.now) result }
{
    match areas_for(alloc, seen, target, defs, facts, matched, wants) {
        Ok(areas) => plan_among(
            alloc,
            seen,
            target,
            defs,
            facts,
            seed,
            matched,
            wants,
            areas.as_slice(),
        ),
        Err(demand) => Err(demand),
    }
}

// The areas of the shown table, once its last usable unit is that of the target.
fn areas_for(
    alloc: Global,
    seen: &Seen,
    target: u64,
    defs: &[Definition],
    facts: &[Fact],
    matched: &[Option<u16>],
    wants: &[Want],
) -> Result<List<Area>, Demand>
    requires asked { IsAsked seen.now target defs.now facts.now matched.now wants.now }
    ensures gives { Gives Demand.Memory (after of_area (areas_of seen.now.shown (last_for seen.now target) matched.now wants.now)
        (λ areas. Ok areas)) result }
    ensures used { IfOk result (All (λ (a : Space). a.used ≤ a.span)) }
{
    let last = last_of(seen, target);
    match areas(alloc, &seen.shown, last, matched, wants) {
        Ok(areas) => Ok(areas),
        Err(fault) => Err(area_demand(fault)),
    }
}

// The last usable unit of an image of the target's length.
fn last_of(seen: &Seen, target: u64) -> u64
    requires seen { IsPlannable seen.now }
    requires target { IsTarget seen.now.shown.sector seen.now.sectors target }
    ensures value { result ≡ last_for seen.now target }
    ensures bounds { seen.now.shown.last ≤ result }
    ensures small { result < 2 ^ 35 }
{
    let (sector, entries) = (seen.shown.sector, seen.shown.entries);
    usable_end(sector, entries, target / sector_units(sector)) - 1
}

// The plan, from the areas.
fn plan_among(
    alloc: Global,
    seen: &Seen,
    target: u64,
    defs: &[Definition],
    facts: &[Fact],
    seed: Guid,
    matched: &[Option<u16>],
    wants: &[Want],
    areas: &[Area],
) -> Result<Plan, Demand>
    requires asked { IsAsked seen.now target defs.now facts.now matched.now wants.now }
    requires areas { areas_of seen.now.shown (last_for seen.now target) matched.now wants.now ≡ Ok areas.now }
    requires used { All (λ (a : Space). a.used ≤ a.span) areas.now }
    ensures { Gives Demand.Memory (among seen.now target defs.now facts.now seed wants.now areas.now) result }
{
    let list = news(alloc, matched, wants, defs)?;
    let news = list.as_slice();
    match placed_in(alloc, seen, areas, news) {
        Ok(placed) => plan_placed(
            alloc, seen, target, defs, facts, seed, matched, wants, areas, news, placed,
        ),
        Err(demand) => Err(demand),
    }
}

// Where the new definitions are placed.
fn placed_in(alloc: Global, seen: &Seen, areas: &[Area], news: &[New]) -> Result<Placed, Demand>
    requires seen { IsPlannable seen.now }
    requires used { All (λ (a : Space). a.used ≤ a.span) areas.now }
    requires few { length areas.now ≤ 65535 }
    requires spans { All (λ (a : Space). a.span < 2 ^ 52) areas.now }
    requires needs { All (λ (n : Added). n.need < 2 ^ 52) news.now }
    ensures { Gives Demand.Memory (after of_place (settled areas.now news.now (slots_of seen.now.shown)) (λ placed. Ok placed)) result }
{
    match settle(alloc, areas, news, free_slots(&seen.shown)) {
        Ok(placed) => Ok(placed),
        Err(fault) => Err(place_demand(fault)),
    }
}

// The plan, from where the new definitions are placed.
fn plan_placed(
    alloc: Global,
    seen: &Seen,
    target: u64,
    defs: &[Definition],
    facts: &[Fact],
    seed: Guid,
    matched: &[Option<u16>],
    wants: &[Want],
    areas: &[Area],
    news: &[New],
    placed: Placed,
) -> Result<Plan, Demand>
    requires asked { IsAsked seen.now target defs.now facts.now matched.now wants.now }
    requires areas { areas_of seen.now.shown (last_for seen.now target) matched.now wants.now ≡ Ok areas.now }
    requires news { news.now ≡ news_of matched.now wants.now defs.now }
    requires placed { settled areas.now news.now (slots_of seen.now.shown) ≡ Ok placed }
    ensures { Gives Demand.Memory (placing seen.now target defs.now facts.now seed wants.now areas.now placed) result }
{
    let laid = lay_out(alloc, &seen.shown, matched, wants, areas, news, &placed)?;
    let files = kept_files(alloc, matched, placed.threshold, defs)?;
    let (spots, kept) = (laid.as_slice(), files.as_slice());
    match goal_table(
        alloc,
        seen,
        target,
        defs,
        facts,
        seed,
        matched,
        placed.threshold,
        spots,
        kept,
    ) {
        Ok(goal) => noted(
            alloc,
            seen,
            target,
            defs,
            facts,
            seed,
            matched,
            placed.threshold,
            kept,
            goal,
        ),
        Err(demand) => Err(demand),
    }
}

// The goal's table.
fn goal_table(
    alloc: Global,
    seen: &Seen,
    target: u64,
    defs: &[Definition],
    facts: &[Fact],
    seed: Guid,
    matched: &[Option<u16>],
    threshold: i32,
    spots: &[Option<Spot>],
    kept: &[u16],
) -> Result<Table, Demand>
    requires given { IsGiven seen.now target defs.now matched.now }
    requires kept { kept.now ≡ files_kept matched.now threshold defs.now }
    ensures gives { Gives Demand.Memory (after of_ident
        (named (table_laid seen.now target (rows_laid_out seen.now.shown.rows matched.now threshold defs.now spots.now))
        (namings_of facts.now matched.now (length seen.now.shown.rows) kept.now defs.now) seed) (λ table. Ok table)) result }
    ensures rows { IfOk result (λ table. length seen.now.shown.rows ≤ length table.rows) }
{
    let old = seen.shown.rows.as_slice();
    let rows = rows_laid(alloc, old, matched, threshold, defs, spots)?;
    let namings = namings(alloc, facts, matched, old.len() as u16, kept, defs)?;
    let table = Table {
        sector: seen.shown.sector,
        entries: seen.shown.entries,
        disk: seen.shown.disk,
        first: seen.shown.first,
        last: last_of(seen, target),
        rows,
    };
    match name_rows(table, namings.as_slice(), seed) {
        Ok(table) => Ok(table),
        Err(fault) => Err(ident_demand(fault)),
    }
}

// The plan with a table, its rows noted.
fn noted(
    alloc: Global,
    seen: &Seen,
    target: u64,
    defs: &[Definition],
    facts: &[Fact],
    seed: Guid,
    matched: &[Option<u16>],
    threshold: i32,
    kept: &[u16],
    goal: Table,
) -> Result<Plan, Demand>
    requires given { IsGiven seen.now target defs.now matched.now }
    requires kept { kept.now ≡ files_kept matched.now threshold defs.now }
    requires rows { length seen.now.shown.rows ≤ length goal.rows }
    ensures { Gives Demand.Memory (Ok (plan_with seen.now target defs.now facts.now seed threshold goal)) result }
{
    let old = seen.shown.rows.as_slice();
    let mut notes = old_notes(alloc, matched, old, goal.rows.as_slice())?;
    add_notes(
        &mut notes,
        seed,
        matched,
        threshold,
        defs,
        facts,
        first_free(old),
        kept,
    )?;
    let dropped = dropped_files(alloc, matched, threshold, defs)?;
    Ok(Plan {
        target,
        goal,
        notes,
        dropped,
        threshold,
    })
}
