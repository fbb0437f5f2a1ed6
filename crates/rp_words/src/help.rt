//! What `--help` prints, from the tables of commands and options.

ghost use Rattle.std.specs.Prelude.{◌≡◌, ◌++◌, IfOk, OnOk, map, string_bytes};
ghost use Rattle.std.specs.List.{flat_map};
ghost use Rattle.rp_words.specs.Help.{command_text, default_text, end_text, help as help_bytes, option_text, usage, written};
ghost use Rattle.rp_words.specs.Table.{command_entry, commands, option_entry, options};

use crate::table::{Command, CommandEntry, OptionEntry, Use, commands, options};
use rp_base::{Memory, Text};
use std::alloc::{AllocError, Global};

pub(crate) const HEAD: &str =
    "repart works on the partition table of a raw disk image or a block device.

";

pub(crate) const MIDDLE: &str = "repart --help prints this, and repart --version the version.

Options stand before the image, in any order, each at most once:

";

pub(crate) const TAIL: &str = "
For example, repart show disk.img

The exit status is 0 where the command was done. Each other is explained in the
manual, repart(8), and has a line that says why, but for 9, where the output
failed, and 10, want of memory.
";

/// What `--help` prints: each command, and each option.
pub fn help_text(alloc: Global) -> Result<Text, Memory>
    ensures { IfOk result (λ text. text ≡ help_bytes) }
{
    let mut text = String::new(alloc);
    push_all(&mut text)?;
    Ok(Text::from_string(text))
}

#[tactic(auto, unfolding(crate::specs::Help::help))]
fn push_all(text: &mut String) -> Result<(), AllocError>
    ensures { OnOk result (string_bytes text.new ≡ string_bytes text.old ++ help_bytes) }
{
    text.push_str(HEAD)?;
    push_commands(text)?;
    text.push_str(MIDDLE)?;
    push_options(text)?;
    text.push_str(TAIL)
}

fn push_commands(text: &mut String) -> Result<(), AllocError>
    ensures { OnOk result (string_bytes text.new ≡ string_bytes text.old ++ flat_map command_text commands) }
{
    push_each_command(text, commands())
}

fn push_each_command(text: &mut String, entries: &[CommandEntry]) -> Result<(), AllocError>
    ensures { OnOk result (string_bytes text.new
        ≡ string_bytes text.old ++ flat_map (λ entry. command_text (command_entry entry)) entries.now) }
{
    for entry in entries {
        push_command(text, entry)?;
    }
    Ok(())
}

#[tactic(auto, unfolding(crate::specs::Help::command_text))]
fn push_command(text: &mut String, entry: &CommandEntry) -> Result<(), AllocError>
    ensures { OnOk result (string_bytes text.new ≡ string_bytes text.old ++ command_text (command_entry entry.now)) }
{
    let (name, row, about) = *entry;
    write!(text, "repart {name} {about}:\n\n    repart {name}")?;
    push_usages(text, row.command)?;
    text.push_str(end(row.image))
}

fn end(image: bool) -> &'static str
    ensures { result.now ≡ end_text image }
{
    if image { "\n        IMAGE\n\n" } else { "\n\n" }
}

fn push_usages(text: &mut String, command: Command) -> Result<(), AllocError>
    ensures { OnOk result (string_bytes text.new ≡ string_bytes text.old ++ flat_map (usage command) options) }
{
    push_each_usage(text, command, options())
}

fn push_each_usage(
    text: &mut String,
    command: Command,
    entries: &[OptionEntry],
) -> Result<(), AllocError>
    ensures { OnOk result (string_bytes text.new
        ≡ string_bytes text.old ++ flat_map (λ entry. usage command (option_entry entry)) entries.now) }
{
    for entry in entries {
        push_usage(text, command, entry)?;
    }
    Ok(())
}

// An option that the command has, on a line; in brackets where it may be left out.
fn push_usage(text: &mut String, command: Command, entry: &OptionEntry) -> Result<(), AllocError>
    ensures { OnOk result (string_bytes text.new ≡ string_bytes text.old ++ usage command (option_entry entry.now)) }
{
    match entry.3.use_by(command) {
        Use::Never => Ok(()),
        Use::May => {
            text.push_str("\n        [")?;
            push_written(text, entry)?;
            text.push_str("]")
        }
        Use::Must => {
            text.push_str("\n        ")?;
            push_written(text, entry)
        }
    }
}

fn push_written(text: &mut String, entry: &OptionEntry) -> Result<(), AllocError>
    ensures { OnOk result (string_bytes text.new ≡ string_bytes text.old ++ written (option_entry entry.now)) }
{
    let (name, _, form, _, _) = *entry;
    write!(text, "--{name}={form}")
}

fn push_options(text: &mut String) -> Result<(), AllocError>
    ensures { OnOk result (string_bytes text.new ≡ string_bytes text.old ++ flat_map option_text options) }
{
    push_each_option(text, options())
}

fn push_each_option(text: &mut String, entries: &[OptionEntry]) -> Result<(), AllocError>
    ensures { OnOk result (string_bytes text.new
        ≡ string_bytes text.old ++ flat_map (λ entry. option_text (option_entry entry)) entries.now) }
{
    for entry in entries {
        push_option(text, entry)?;
    }
    Ok(())
}

#[tactic(auto, unfolding(crate::specs::Help::option_text))]
fn push_option(text: &mut String, entry: &OptionEntry) -> Result<(), AllocError>
    ensures { OnOk result (string_bytes text.new ≡ string_bytes text.old ++ option_text (option_entry entry.now)) }
{
    text.push_str("    ")?;
    push_written(text, entry)?;
    let (_, default, _, _, about) = *entry;
    write!(text, "\n        {about}")?;
    push_default(text, default)?;
    text.push_str("\n")
}

fn push_default(text: &mut String, default: &str) -> Result<(), AllocError>
    ensures { OnOk result (string_bytes text.new ≡ string_bytes text.old ++ default_text default.now) }
{
    if default.is_empty() {
        return Ok(());
    }
    write!(text, "; {default} if not given")
}
