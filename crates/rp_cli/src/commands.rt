ghost use Rattle.std.specs.Prelude.{◌≤◌, ◌≡◌, ◌≢◌, ◌↔◌, IfOk, IsErr, false, map, string_bytes, true};
ghost use Rattle.rp_apply_command.specs.Ends.{IsBefore, IsBehind, LeavesAll};
ghost use Rattle.rp_base.specs.Geometry.{IsSector};
ghost use Rattle.rp_cli.specs.Applied.{AppliesAsked, IsApplied, IsSafeThroughout, WritesNothingIdle};
ghost use Rattle.rp_cli.specs.Holds.{Holds};
ghost use Rattle.rp_cli.specs.Asked.{AreAsBefore, AreAllAsBefore, ChecksAsked, PlansAsked, request_of as request_of_line};
ghost use Rattle.rp_cli.specs.Resetting.{AppliesResetAsked, IsRenewed, IsRenewedSafely, PlansResetAsked};
ghost use Rattle.rp_dissect_command.specs.Dissects.{Dissects};
ghost use Rattle.rp_make_command.specs.Ends.{MakeEnds};
ghost use Rattle.rp_make_command.specs.Makes.{Makes};
ghost use Rattle.rp_make_promise.specs.Promise.{MakePromise};
ghost use Rattle.rp_outcome.specs.Causes.{HasCauses};
ghost use Rattle.rp_outcome.specs.Device.{IsOnlyRead};
ghost use Rattle.rp_outcome.specs.Output.{Refuses, output};
ghost use Rattle.rp_outcome.specs.Refusals.{words_refusal};
ghost use Rattle.rp_outcome.specs.Store.{store};
ghost use Rattle.rp_planned.specs.Files.{HasFileCauses};
ghost use Rattle.rp_policy_command.specs.Commands.{Compares, PrintsPolicy};
ghost use Rattle.rp_show.specs.Shows.{Shows};
ghost use Rattle.rp_words.specs.Line.{line_of, text_in};
ghost use Rattle.rp_words.specs.Values.{IsSize, paths_of};

use crate::planning::{apply_by_line, plan_by_line};
use rp_base::Memory;
use rp_check_command::check;
use rp_disk::Disk;
use rp_dissect_command::dissect;
use rp_io::{Folders, Sink, Sources};
use rp_make_command::make;
use rp_outcome::{Refusal, refuse};
use rp_policy_command::{compare, policy};
use rp_show::show;
use rp_words::{Command, Line, Opt, read_line, read_paths, text_of};
use std::alloc::Global;

/// Does what the words ask for on a disk, with folders of definitions and sources of contents, prints to a sink, and answers
/// the exit status. The words don't hold the program's name. The disk is the image; the word that names it is for the
/// caller.
///
/// Statuses: 0 done; 1 `check` or `compare` told a difference; 2 the words aren't canonical; 3 the definition files are no list of
/// definitions; 4 the image isn't accepted; 5 what the definitions ask for can't be had; 6 a text is no policy, or the policy
/// denies the image; 7 the disk failed; 8 the folders or the sources failed; 9 the sink failed once all else was done; 10 out
/// of memory; 11 a source has changed since it was planned. A status but 0, 1, 9 and 10 prints its line `error STATUS ..`, or of
/// a denial `denied ..`.
#[tactic(auto, using(crate::proofs::Promised::show_files, crate::proofs::Promised::words_files, crate::proofs::Policies::dissect_only_read, crate::proofs::Policies::dissect_causes, crate::proofs::Policies::dissect_files, crate::proofs::Policies::dissect_words, crate::proofs::Policies::policy_causes, crate::proofs::Policies::policy_files, crate::proofs::Policies::policy_words, crate::proofs::Policies::compare_causes, crate::proofs::Policies::compare_files, crate::proofs::Policies::compare_words))]
pub fn run<D: Disk, F: Folders, S: Sources, K: Sink>(
    alloc: Global,
    words: &[String],
    disk: &mut D,
    folders: &mut F,
    sources: &mut S,
    out: &mut K,
) -> u8
    // The status is 2 exactly where the words aren't canonical.
    ensures words { (result ≡ 2) ↔ IsErr (line_of (map string_bytes words.now)) }
    // Where they aren't, `error 2 words` is printed, and folders, disk and sources are as before (a read that succeeds leaves no trace).
    ensures refused { IsErr (line_of (map string_bytes words.now))
        → Refuses (output K.told K.faults out.old) (output K.told K.faults out.new) words_refusal result
        × AreAllAsBefore
        (store F.told F.faults F.strays folders.old) (store F.told F.faults F.strays folders.new)
        (D.device disk.old) (D.device disk.new)
        (store S.told S.faults S.strays sources.old) (store S.told S.faults S.strays sources.new) }
    // `show` reads the table and prints it, or the line of the first refusal; folders and sources are as before (a read that succeeds
    // leaves no trace).
    ensures show { IfOk (line_of (map string_bytes words.now)) (λ line. line.command ≡ Command.Show
        → Shows line.sector line.json
        (D.device disk.old) (D.device disk.new)
        (output K.told K.faults out.old) (output K.told K.faults out.new) result
        × AreAsBefore
        (store F.told F.faults F.strays folders.old) (store F.told F.faults F.strays folders.new)
        (store S.told S.faults S.strays sources.old) (store S.told S.faults S.strays sources.new)) }
    // `plan` reads definitions, image and sources, and prints what is to become of the image, or the line of the first refusal.
    ensures plan { IfOk (line_of (map string_bytes words.now)) (λ line. line.command ≡ Command.Plan → line.factory_reset ≡ false
        → PlansAsked (request_of_line line) line.json (paths_of (text_in Opt.Definitions (map string_bytes words.now)))
        (store F.told F.faults F.strays folders.old) (store F.told F.faults F.strays folders.new)
        (D.device disk.old) (D.device disk.new)
        (store S.told S.faults S.strays sources.old) (store S.told S.faults S.strays sources.new)
        (output K.told K.faults out.old) (output K.told K.faults out.new) result) }
    // With `--factory-reset=on` it plans to take rows out of the table first, and then plans for what that leaves.
    ensures plan_reset { IfOk (line_of (map string_bytes words.now)) (λ line. line.command ≡ Command.Plan → line.factory_reset ≡ true
        → PlansResetAsked (request_of_line line) line.json (paths_of (text_in Opt.Definitions (map string_bytes words.now)))
        (store F.told F.faults F.strays folders.old) (store F.told F.faults F.strays folders.new)
        (D.device disk.old) (D.device disk.new)
        (store S.told S.faults S.strays sources.old) (store S.told S.faults S.strays sources.new)
        (output K.told K.faults out.old) (output K.told K.faults out.new) result) }
    // `apply` reads definitions, syncs the disk, plans as `plan` does, takes all memory, carries the plan out by the calls
    // of its steps, and prints it.
    ensures apply { IfOk (line_of (map string_bytes words.now)) (λ line. line.command ≡ Command.Apply → line.factory_reset ≡ false
        → AppliesAsked (request_of_line line) line.json (paths_of (text_in Opt.Definitions (map string_bytes words.now)))
        (store F.told F.faults F.strays folders.old) (store F.told F.faults F.strays folders.new)
        (D.device disk.old) (D.device disk.new)
        (store S.told S.faults S.strays sources.old) (store S.told S.faults S.strays sources.new)
        (output K.told K.faults out.old) (output K.told K.faults out.new) result) }
    // With `--factory-reset=on` both plans are made and all memory is taken before the first write, and then the calls of both are made.
    ensures apply_reset { IfOk (line_of (map string_bytes words.now)) (λ line. line.command ≡ Command.Apply → line.factory_reset ≡ true
        → AppliesResetAsked (request_of_line line) line.json (paths_of (text_in Opt.Definitions (map string_bytes words.now)))
        (store F.told F.faults F.strays folders.old) (store F.told F.faults F.strays folders.new)
        (D.device disk.old) (D.device disk.new)
        (store S.told S.faults S.strays sources.old) (store S.told S.faults S.strays sources.new)
        (output K.told K.faults out.old) (output K.told K.faults out.new) result) }
    // `check` plans for the image's own length and prints the first difference from the image, or that there is none.
    ensures check { IfOk (line_of (map string_bytes words.now)) (λ line. line.command ≡ Command.Check
        → ChecksAsked line.seed line.arch line.sector (paths_of (text_in Opt.Definitions (map string_bytes words.now)))
        (store F.told F.faults F.strays folders.old) (store F.told F.faults F.strays folders.new)
        (D.device disk.old) (D.device disk.new)
        (store S.told S.faults S.strays sources.old) (store S.told S.faults S.strays sources.new)
        (output K.told K.faults out.old) (output K.told K.faults out.new) result) }
    // `make` makes the input of its number, syncs the disk, grows the image to 1 GiB, carries out what is planned for it, looks for what it
    // differs in and prints a summary; folders and sources that are handed in are as before (a read that succeeds leaves no trace).
    ensures make { IfOk (line_of (map string_bytes words.now)) (λ line. line.command ≡ Command.Make
        → Makes line.number
        (D.device disk.old) (D.device disk.new)
        (output K.told K.faults out.old) (output K.told K.faults out.new) result
        × AreAsBefore
        (store F.told F.faults F.strays folders.old) (store F.told F.faults F.strays folders.new)
        (store S.told S.faults S.strays sources.old) (store S.told S.faults S.strays sources.new)) }
    // `dissect` reads the policy, then the image, and prints the verdict on each designator, or which one is denied.
    ensures dissect { IfOk (line_of (map string_bytes words.now)) (λ line. line.command ≡ Command.Dissect
        → Dissects (text_in Opt.Policy (map string_bytes words.now)) line.arch line.sector line.json
        (D.device disk.old) (D.device disk.new)
        (output K.told K.faults out.old) (output K.told K.faults out.new) result
        × AreAsBefore
        (store F.told F.faults F.strays folders.old) (store F.told F.faults F.strays folders.new)
        (store S.told S.faults S.strays sources.old) (store S.told S.faults S.strays sources.new)) }
    // `policy` prints the policy's canonical text and the flags of each designator; folders, disk and sources are as before (a read that
    // succeeds leaves no trace).
    ensures policy { IfOk (line_of (map string_bytes words.now)) (λ line. line.command ≡ Command.Policy
        → PrintsPolicy (text_in Opt.Policy (map string_bytes words.now))
        (output K.told K.faults out.old) (output K.told K.faults out.new) result
        × AreAllAsBefore
        (store F.told F.faults F.strays folders.old) (store F.told F.faults F.strays folders.new)
        (D.device disk.old) (D.device disk.new)
        (store S.told S.faults S.strays sources.old) (store S.told S.faults S.strays sources.new)) }
    // `compare` prints whether one policy allows what the other denies, and what; folders, disk and sources are as before (a read that
    // succeeds leaves no trace).
    ensures compare { IfOk (line_of (map string_bytes words.now)) (λ line. line.command ≡ Command.Compare
        → Compares (text_in Opt.Policy (map string_bytes words.now)) (text_in Opt.Against (map string_bytes words.now))
        (output K.told K.faults out.old) (output K.told K.faults out.new) result
        × AreAllAsBefore
        (store F.told F.faults F.strays folders.old) (store F.told F.faults F.strays folders.new)
        (D.device disk.old) (D.device disk.new)
        (store S.told S.faults S.strays sources.old) (store S.told S.faults S.strays sources.new)) }

    // What `apply` promises: where it answers 0, and at 9, the image's table is the goal of its old table and the definitions, every old
    // partition keeps its place and bytes, new ones hold their contents.
    ensures applied { IfOk (line_of (map string_bytes words.now)) (λ line. line.command ≡ Command.Apply → line.factory_reset ≡ false
        → IsBehind result
        → IsApplied (request_of_line line) (paths_of (text_in Opt.Definitions (map string_bytes words.now)))
        (store F.told F.faults F.strays folders.old)
        (D.device disk.old) (D.device disk.new)
        (store S.told S.faults S.strays sources.old)) }
    // With a factory reset its table is the goal of its reset table, which is the old one without the rows of definitions that say so,
    // and every partition of that keeps its place and bytes.
    ensures renewed { IfOk (line_of (map string_bytes words.now)) (λ line. line.command ≡ Command.Apply → line.factory_reset ≡ true
        → IsBehind result
        → IsRenewed (request_of_line line) (paths_of (text_in Opt.Definitions (map string_bytes words.now)))
        (store F.told F.faults F.strays folders.old)
        (D.device disk.old) (D.device disk.new)
        (store S.told S.faults S.strays sources.old)) }
    // A second run without reset writes nothing where none was dropped: such an image is idle.
    ensures second_run { IfOk (line_of (map string_bytes words.now)) (λ line. line.command ≡ Command.Apply → line.factory_reset ≡ false
        → WritesNothingIdle (request_of_line line) (paths_of (text_in Opt.Definitions (map string_bytes words.now)))
        (store F.told F.faults F.strays folders.old)
        (D.device disk.old) (D.device disk.new)) }
    // Stopped at any moment, the image shows the old table or the goal with all that.
    ensures any_moment { IfOk (line_of (map string_bytes words.now)) (λ line. line.command ≡ Command.Apply → line.factory_reset ≡ false
        → IsSafeThroughout (request_of_line line) (paths_of (text_in Opt.Definitions (map string_bytes words.now)))
        (store F.told F.faults F.strays folders.old)
        (D.device disk.old) (D.device disk.new)
        (store S.told S.faults S.strays sources.old)) }
    // Stopped at any moment of a factory reset, it shows the old, the reset or the goal table with all that.
    ensures any_moment_of_reset { IfOk (line_of (map string_bytes words.now)) (λ line. line.command ≡ Command.Apply
        → line.factory_reset ≡ true
        → IsRenewedSafely (request_of_line line) (paths_of (text_in Opt.Definitions (map string_bytes words.now)))
        (store F.told F.faults F.strays folders.old)
        (D.device disk.old) (D.device disk.new)
        (store S.told S.faults S.strays sources.old)) }
    // What `make` promises: of each past that the disk can have, the image is made wherever it may be and no call fails, and differs in
    // nothing from what is planned for it again; at 0 the summary has the rows, the writes and the root hash; a stop at any moment
    // leaves the image as it could have been at the start, in its growth, or with no table or the goal. Over every disk 8 never comes.
    ensures made { IfOk (line_of (map string_bytes words.now)) (λ line. line.command ≡ Command.Make
        → MakePromise line.number
        (D.device disk.old) (D.device disk.new)
        (output K.told K.faults out.old) (output K.told K.faults out.new) result) }
    // What is refused for definitions, image, demand or want of memory changes nothing.
    ensures untouched { IfOk (line_of (map string_bytes words.now)) (λ line. line.command ≡ Command.Apply → IsBefore result
        → LeavesAll
        (D.device disk.old) (D.device disk.new)) }

    // Every command but `apply` and `make` only reads: no call may change the disk.
    ensures only_read { IfOk (line_of (map string_bytes words.now)) (λ line. (line.command ≢ Command.Apply) × (line.command ≢ Command.Make))
        → IsOnlyRead
        (D.device disk.old) (D.device disk.new) }
    // Status 7 comes only where the disk counted a failed call, and at each other status it counted none; 9 comes only where the sink
    // counted one, and at 0 it counted none.
    ensures causes { HasCauses
        (D.device disk.old) (D.device disk.new)
        (output K.told K.faults out.old) (output K.told K.faults out.new) result }
    // Status 8 comes only where the folders or the sources counted a failed call, and its line says which; at 0 neither counted one.
    ensures files { HasFileCauses
        (store F.told F.faults F.strays folders.old) (store F.told F.faults F.strays folders.new)
        (store S.told S.faults S.strays sources.old) (store S.told S.faults S.strays sources.new)
        (output K.told K.faults out.old) (output K.told K.faults out.new) result }
{
    match read_line(words) {
        Err(_) => refuse(out, &Refusal::words()),
        Ok(line) => match line.command {
            Command::Show => show(alloc, line.sector, line.json, disk, out),
            Command::Plan => plan_by_line(alloc, line, words, disk, folders, sources, out),
            Command::Apply => apply_by_line(alloc, line, words, disk, folders, sources, out),
            Command::Check => run_check(alloc, line, words, disk, folders, sources, out),
            Command::Dissect => run_dissect(alloc, line, words, disk, out),
            Command::Policy => run_policy(alloc, words, out),
            Command::Make => run_make(alloc, line.number, disk, out),
            Command::Compare => run_compare(alloc, words, out),
        },
    }
}

fn run_check<D: Disk, F: Folders, S: Sources, K: Sink>(
    alloc: Global,
    line: Line,
    words: &[String],
    disk: &mut D,
    folders: &mut F,
    sources: &mut S,
    out: &mut K,
) -> u8
    requires { IsSector line.sector }
    ensures { ChecksAsked line.seed line.arch line.sector (paths_of (text_in Opt.Definitions (map string_bytes words.now)))
        (store F.told F.faults F.strays folders.old) (store F.told F.faults F.strays folders.new)
        (D.device disk.old) (D.device disk.new)
        (store S.told S.faults S.strays sources.old) (store S.told S.faults S.strays sources.new)
        (output K.told K.faults out.old) (output K.told K.faults out.new) result }
{
    let dirs = match read_paths(alloc, text_of(Opt::Definitions, words)) {
        Ok(dirs) => dirs,
        Err(Memory) => return refuse(out, &Refusal::memory()),
    };
    check(
        alloc,
        line.seed,
        line.arch,
        line.sector,
        dirs.as_slice(),
        disk,
        folders,
        sources,
        out,
    )
}

fn run_dissect<D: Disk, K: Sink>(
    alloc: Global,
    line: Line,
    words: &[String],
    disk: &mut D,
    out: &mut K,
) -> u8
    requires { IsSector line.sector }
    ensures { Dissects (text_in Opt.Policy (map string_bytes words.now)) line.arch line.sector line.json
        (D.device disk.old) (D.device disk.new)
        (output K.told K.faults out.old) (output K.told K.faults out.new) result }
{
    let text = text_of(Opt::Policy, words);
    dissect(alloc, text, line.arch, line.sector, line.json, disk, out)
}

fn run_make<D: Disk, K: Sink>(alloc: Global, number: u8, disk: &mut D, out: &mut K) -> u8
    ensures makes { Makes number
        (D.device disk.old) (D.device disk.new)
        (output K.told K.faults out.old) (output K.told K.faults out.new) result }
    ensures ends { MakeEnds
        (D.device disk.old) (D.device disk.new)
        (output K.told K.faults out.old) (output K.told K.faults out.new) result }
    ensures promise { number ≤ 100 → MakePromise number
        (D.device disk.old) (D.device disk.new)
        (output K.told K.faults out.old) (output K.told K.faults out.new) result }
    ensures files { number ≤ 100 → result ≢ 8 }
{
    make(alloc, number, disk, out)
}

fn run_policy<K: Sink>(alloc: Global, words: &[String], out: &mut K) -> u8
    ensures { PrintsPolicy (text_in Opt.Policy (map string_bytes words.now))
        (output K.told K.faults out.old) (output K.told K.faults out.new) result }
{
    policy(alloc, text_of(Opt::Policy, words), out)
}

fn run_compare<K: Sink>(alloc: Global, words: &[String], out: &mut K) -> u8
    ensures { Compares (text_in Opt.Policy (map string_bytes words.now)) (text_in Opt.Against (map string_bytes words.now))
        (output K.told K.faults out.old) (output K.told K.faults out.new) result }
{
    let text = text_of(Opt::Policy, words);
    compare(alloc, text, text_of(Opt::Against, words), out)
}
