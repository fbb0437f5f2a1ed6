//! `plan` and `apply`, with a factory reset or without.

ghost use Rattle.std.specs.Prelude.{◌≡◌, false, map, string_bytes, true};
ghost use Rattle.rp_apply_command.specs.Ends.{IsBefore, IsBehind, LeavesAll};
ghost use Rattle.rp_base.specs.Geometry.{IsSector};
ghost use Rattle.rp_cli.specs.Applied.{AppliesAsked, IsApplied, IsSafeThroughout, WritesNothingIdle};
ghost use Rattle.rp_cli.specs.Asked.{PlansAsked, request_of as request_of_line};
ghost use Rattle.rp_cli.specs.Holds.{Holds};
ghost use Rattle.rp_cli.specs.Resetting.{AppliesResetAsked, IsRenewed, IsRenewedSafely, PlansResetAsked};
ghost use Rattle.rp_outcome.specs.Device.{IsOnlyRead};
ghost use Rattle.rp_outcome.specs.Output.{output};
ghost use Rattle.rp_outcome.specs.Store.{store};
ghost use Rattle.rp_words.specs.Line.{text_in};
ghost use Rattle.rp_words.specs.Values.{IsSize, paths_of};

use rp_apply_command::apply;
use rp_base::Memory;
use rp_disk::Disk;
use rp_io::{Folders, Sink, Sources};
use rp_outcome::{Refusal, refuse};
use rp_plan_command::plan;
use rp_planned::Request;
use rp_reset_command::{apply_reset, plan_reset};
use rp_words::{Line, Opt, read_paths, text_of};
use std::alloc::Global;

/// `plan`, as the line asks for it.
pub(crate) fn plan_by_line<D: Disk, F: Folders, S: Sources, K: Sink>(
    alloc: Global,
    line: Line,
    words: &[String],
    disk: &mut D,
    folders: &mut F,
    sources: &mut S,
    out: &mut K,
) -> u8
    requires sector { IsSector line.sector }
    requires size { IsSize line.size }
    ensures off { line.factory_reset ≡ false
        → PlansAsked (request_of_line line) line.json (paths_of (text_in Opt.Definitions (map string_bytes words.now)))
        (store F.told F.faults F.strays folders.old) (store F.told F.faults F.strays folders.new)
        (D.device disk.old) (D.device disk.new)
        (store S.told S.faults S.strays sources.old) (store S.told S.faults S.strays sources.new)
        (output K.told K.faults out.old) (output K.told K.faults out.new) result }
    ensures on { line.factory_reset ≡ true
        → PlansResetAsked (request_of_line line) line.json (paths_of (text_in Opt.Definitions (map string_bytes words.now)))
        (store F.told F.faults F.strays folders.old) (store F.told F.faults F.strays folders.new)
        (D.device disk.old) (D.device disk.new)
        (store S.told S.faults S.strays sources.old) (store S.told S.faults S.strays sources.new)
        (output K.told K.faults out.old) (output K.told K.faults out.new) result }
    ensures only_read { IsOnlyRead
        (D.device disk.old) (D.device disk.new) }
    ensures holds { Holds
        (store F.told F.faults F.strays folders.old) (store F.told F.faults F.strays folders.new)
        (D.device disk.old) (D.device disk.new)
        (store S.told S.faults S.strays sources.old) (store S.told S.faults S.strays sources.new)
        (output K.told K.faults out.old) (output K.told K.faults out.new) result }
{
    if line.factory_reset {
        run_plan_reset(alloc, line, words, disk, folders, sources, out)
    } else {
        run_plan(alloc, line, words, disk, folders, sources, out)
    }
}

fn run_plan_reset<D: Disk, F: Folders, S: Sources, K: Sink>(
    alloc: Global,
    line: Line,
    words: &[String],
    disk: &mut D,
    folders: &mut F,
    sources: &mut S,
    out: &mut K,
) -> u8
    requires sector { IsSector line.sector }
    requires size { IsSize line.size }
    ensures { PlansResetAsked (request_of_line line) line.json (paths_of (text_in Opt.Definitions (map string_bytes words.now)))
        (store F.told F.faults F.strays folders.old) (store F.told F.faults F.strays folders.new)
        (D.device disk.old) (D.device disk.new)
        (store S.told S.faults S.strays sources.old) (store S.told S.faults S.strays sources.new)
        (output K.told K.faults out.old) (output K.told K.faults out.new) result }
{
    let dirs = match read_paths(alloc, text_of(Opt::Definitions, words)) {
        Ok(dirs) => dirs,
        Err(Memory) => return refuse(out, &Refusal::memory()),
    };
    plan_reset(
        alloc,
        request_of(line),
        line.json,
        dirs.as_slice(),
        disk,
        folders,
        sources,
        out,
    )
}

/// `apply`, as the line asks for it.
pub(crate) fn apply_by_line<D: Disk, F: Folders, S: Sources, K: Sink>(
    alloc: Global,
    line: Line,
    words: &[String],
    disk: &mut D,
    folders: &mut F,
    sources: &mut S,
    out: &mut K,
) -> u8
    requires sector { IsSector line.sector }
    requires size { IsSize line.size }
    ensures apply { line.factory_reset ≡ false
        → AppliesAsked (request_of_line line) line.json (paths_of (text_in Opt.Definitions (map string_bytes words.now)))
        (store F.told F.faults F.strays folders.old) (store F.told F.faults F.strays folders.new)
        (D.device disk.old) (D.device disk.new)
        (store S.told S.faults S.strays sources.old) (store S.told S.faults S.strays sources.new)
        (output K.told K.faults out.old) (output K.told K.faults out.new) result }
    ensures reset { line.factory_reset ≡ true
        → AppliesResetAsked (request_of_line line) line.json (paths_of (text_in Opt.Definitions (map string_bytes words.now)))
        (store F.told F.faults F.strays folders.old) (store F.told F.faults F.strays folders.new)
        (D.device disk.old) (D.device disk.new)
        (store S.told S.faults S.strays sources.old) (store S.told S.faults S.strays sources.new)
        (output K.told K.faults out.old) (output K.told K.faults out.new) result }
    ensures applied { line.factory_reset ≡ false → IsBehind result
        → IsApplied (request_of_line line) (paths_of (text_in Opt.Definitions (map string_bytes words.now)))
        (store F.told F.faults F.strays folders.old)
        (D.device disk.old) (D.device disk.new)
        (store S.told S.faults S.strays sources.old) }
    ensures renewed { line.factory_reset ≡ true → IsBehind result
        → IsRenewed (request_of_line line) (paths_of (text_in Opt.Definitions (map string_bytes words.now)))
        (store F.told F.faults F.strays folders.old)
        (D.device disk.old) (D.device disk.new)
        (store S.told S.faults S.strays sources.old) }
    ensures second_run { line.factory_reset ≡ false
        → WritesNothingIdle (request_of_line line) (paths_of (text_in Opt.Definitions (map string_bytes words.now)))
        (store F.told F.faults F.strays folders.old)
        (D.device disk.old) (D.device disk.new) }
    ensures any_moment { line.factory_reset ≡ false
        → IsSafeThroughout (request_of_line line) (paths_of (text_in Opt.Definitions (map string_bytes words.now)))
        (store F.told F.faults F.strays folders.old)
        (D.device disk.old) (D.device disk.new)
        (store S.told S.faults S.strays sources.old) }
    ensures any_moment_of_reset { line.factory_reset ≡ true
        → IsRenewedSafely (request_of_line line) (paths_of (text_in Opt.Definitions (map string_bytes words.now)))
        (store F.told F.faults F.strays folders.old)
        (D.device disk.old) (D.device disk.new)
        (store S.told S.faults S.strays sources.old) }
    ensures untouched { IsBefore result → LeavesAll
        (D.device disk.old) (D.device disk.new) }
    ensures holds { Holds
        (store F.told F.faults F.strays folders.old) (store F.told F.faults F.strays folders.new)
        (D.device disk.old) (D.device disk.new)
        (store S.told S.faults S.strays sources.old) (store S.told S.faults S.strays sources.new)
        (output K.told K.faults out.old) (output K.told K.faults out.new) result }
{
    if line.factory_reset {
        run_apply_reset(alloc, line, words, disk, folders, sources, out)
    } else {
        run_apply(alloc, line, words, disk, folders, sources, out)
    }
}

fn run_apply_reset<D: Disk, F: Folders, S: Sources, K: Sink>(
    alloc: Global,
    line: Line,
    words: &[String],
    disk: &mut D,
    folders: &mut F,
    sources: &mut S,
    out: &mut K,
) -> u8
    requires sector { IsSector line.sector }
    requires size { IsSize line.size }
    ensures reset { AppliesResetAsked (request_of_line line) line.json (paths_of (text_in Opt.Definitions (map string_bytes words.now)))
        (store F.told F.faults F.strays folders.old) (store F.told F.faults F.strays folders.new)
        (D.device disk.old) (D.device disk.new)
        (store S.told S.faults S.strays sources.old) (store S.told S.faults S.strays sources.new)
        (output K.told K.faults out.old) (output K.told K.faults out.new) result }
    ensures renewed { IsBehind result
        → IsRenewed (request_of_line line) (paths_of (text_in Opt.Definitions (map string_bytes words.now)))
        (store F.told F.faults F.strays folders.old)
        (D.device disk.old) (D.device disk.new)
        (store S.told S.faults S.strays sources.old) }
    ensures any_moment { IsRenewedSafely (request_of_line line) (paths_of (text_in Opt.Definitions (map string_bytes words.now)))
        (store F.told F.faults F.strays folders.old)
        (D.device disk.old) (D.device disk.new)
        (store S.told S.faults S.strays sources.old) }
    ensures untouched { IsBefore result → LeavesAll
        (D.device disk.old) (D.device disk.new) }
    ensures holds { Holds
        (store F.told F.faults F.strays folders.old) (store F.told F.faults F.strays folders.new)
        (D.device disk.old) (D.device disk.new)
        (store S.told S.faults S.strays sources.old) (store S.told S.faults S.strays sources.new)
        (output K.told K.faults out.old) (output K.told K.faults out.new) result }
{
    apply_reset_asked(alloc, line, words, disk, folders, sources, out)
}

// The same, by its stages alone.
fn apply_reset_asked<D: Disk, F: Folders, S: Sources, K: Sink>(
    alloc: Global,
    line: Line,
    words: &[String],
    disk: &mut D,
    folders: &mut F,
    sources: &mut S,
    out: &mut K,
) -> u8
    requires sector { IsSector line.sector }
    requires size { IsSize line.size }
    ensures { AppliesResetAsked (request_of_line line) line.json (paths_of (text_in Opt.Definitions (map string_bytes words.now)))
        (store F.told F.faults F.strays folders.old) (store F.told F.faults F.strays folders.new)
        (D.device disk.old) (D.device disk.new)
        (store S.told S.faults S.strays sources.old) (store S.told S.faults S.strays sources.new)
        (output K.told K.faults out.old) (output K.told K.faults out.new) result }
{
    let dirs = match read_paths(alloc, text_of(Opt::Definitions, words)) {
        Ok(dirs) => dirs,
        Err(Memory) => return refuse(out, &Refusal::memory()),
    };
    apply_reset(
        alloc,
        request_of(line),
        line.json,
        dirs.as_slice(),
        disk,
        folders,
        sources,
        out,
    )
}

// `plan` without a factory reset.
fn run_plan<D: Disk, F: Folders, S: Sources, K: Sink>(
    alloc: Global,
    line: Line,
    words: &[String],
    disk: &mut D,
    folders: &mut F,
    sources: &mut S,
    out: &mut K,
) -> u8
    requires sector { IsSector line.sector }
    requires size { IsSize line.size }
    ensures { PlansAsked (request_of_line line) line.json (paths_of (text_in Opt.Definitions (map string_bytes words.now)))
        (store F.told F.faults F.strays folders.old) (store F.told F.faults F.strays folders.new)
        (D.device disk.old) (D.device disk.new)
        (store S.told S.faults S.strays sources.old) (store S.told S.faults S.strays sources.new)
        (output K.told K.faults out.old) (output K.told K.faults out.new) result }
{
    let dirs = match read_paths(alloc, text_of(Opt::Definitions, words)) {
        Ok(dirs) => dirs,
        Err(Memory) => return refuse(out, &Refusal::memory()),
    };
    plan(
        alloc,
        request_of(line),
        line.json,
        dirs.as_slice(),
        disk,
        folders,
        sources,
        out,
    )
}

// `apply` without a factory reset.
fn run_apply<D: Disk, F: Folders, S: Sources, K: Sink>(
    alloc: Global,
    line: Line,
    words: &[String],
    disk: &mut D,
    folders: &mut F,
    sources: &mut S,
    out: &mut K,
) -> u8
    requires sector { IsSector line.sector }
    requires size { IsSize line.size }
    ensures apply { AppliesAsked (request_of_line line) line.json (paths_of (text_in Opt.Definitions (map string_bytes words.now)))
        (store F.told F.faults F.strays folders.old) (store F.told F.faults F.strays folders.new)
        (D.device disk.old) (D.device disk.new)
        (store S.told S.faults S.strays sources.old) (store S.told S.faults S.strays sources.new)
        (output K.told K.faults out.old) (output K.told K.faults out.new) result }
    ensures applied { IsBehind result → IsApplied (request_of_line line) (paths_of (text_in Opt.Definitions (map string_bytes words.now)))
        (store F.told F.faults F.strays folders.old)
        (D.device disk.old) (D.device disk.new)
        (store S.told S.faults S.strays sources.old) }
    ensures second_run { WritesNothingIdle (request_of_line line) (paths_of (text_in Opt.Definitions (map string_bytes words.now)))
        (store F.told F.faults F.strays folders.old)
        (D.device disk.old) (D.device disk.new) }
    ensures any_moment { IsSafeThroughout (request_of_line line) (paths_of (text_in Opt.Definitions (map string_bytes words.now)))
        (store F.told F.faults F.strays folders.old)
        (D.device disk.old) (D.device disk.new)
        (store S.told S.faults S.strays sources.old) }
    ensures untouched { IsBefore result → LeavesAll
        (D.device disk.old) (D.device disk.new) }
    ensures holds { Holds
        (store F.told F.faults F.strays folders.old) (store F.told F.faults F.strays folders.new)
        (D.device disk.old) (D.device disk.new)
        (store S.told S.faults S.strays sources.old) (store S.told S.faults S.strays sources.new)
        (output K.told K.faults out.old) (output K.told K.faults out.new) result }
{
    apply_asked(alloc, line, words, disk, folders, sources, out)
}

// The same, by its stages alone.
fn apply_asked<D: Disk, F: Folders, S: Sources, K: Sink>(
    alloc: Global,
    line: Line,
    words: &[String],
    disk: &mut D,
    folders: &mut F,
    sources: &mut S,
    out: &mut K,
) -> u8
    requires sector { IsSector line.sector }
    requires size { IsSize line.size }
    ensures { AppliesAsked (request_of_line line) line.json (paths_of (text_in Opt.Definitions (map string_bytes words.now)))
        (store F.told F.faults F.strays folders.old) (store F.told F.faults F.strays folders.new)
        (D.device disk.old) (D.device disk.new)
        (store S.told S.faults S.strays sources.old) (store S.told S.faults S.strays sources.new)
        (output K.told K.faults out.old) (output K.told K.faults out.new) result }
{
    let dirs = match read_paths(alloc, text_of(Opt::Definitions, words)) {
        Ok(dirs) => dirs,
        Err(Memory) => return refuse(out, &Refusal::memory()),
    };
    apply(
        alloc,
        request_of(line),
        line.json,
        dirs.as_slice(),
        disk,
        folders,
        sources,
        out,
    )
}

fn request_of(line: Line) -> Request
    ensures { result ≡ request_of_line line }
{
    Request {
        seed: line.seed,
        arch: line.arch,
        empty: line.empty,
        size: line.size,
        sector: line.sector,
    }
}
