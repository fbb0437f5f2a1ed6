ghost use Rattle.std.specs.Prelude.{◌≡◌, map};
ghost use Rattle.rp_words.specs.Table.{command_entry, commands, option_entry, options};

/// A command of the program.
#[derive(Clone, Copy, Debug, PartialEq, Eq)]
pub enum Command {
    Show,
    Plan,
    Apply,
    Check,
    Dissect,
    Policy,
    Make,
    Compare,
}

/// An option, which is written `--NAME=VALUE`.
#[derive(Clone, Copy, Debug, PartialEq, Eq)]
pub enum Opt {
    Definitions,
    Seed,
    Arch,
    Empty,
    Size,
    Json,
    SectorSize,
    FactoryReset,
    Policy,
    Against,
    Number,
}

/// What an option is to a command.
#[derive(Clone, Copy, PartialEq, Eq)]
pub(crate) enum Use {
    Never,
    May,
    Must,
}

/// A command, and whether an image follows its options.
#[derive(Clone, Copy)]
pub(crate) struct CommandRow {
    pub(crate) command: Command,
    pub(crate) image: bool,
}

/// An option, and what it is to each command.
#[derive(Clone, Copy)]
pub(crate) struct OptionRow {
    pub(crate) option: Opt,
    pub(crate) show: Use,
    pub(crate) plan: Use,
    pub(crate) apply: Use,
    pub(crate) check: Use,
    pub(crate) dissect: Use,
    pub(crate) policy: Use,
    pub(crate) make: Use,
    pub(crate) compare: Use,
}

/// A command by name, with what it does, for people.
pub(crate) type CommandEntry = (&'static str, CommandRow, &'static str);

/// An option by name, with the value that stands where it isn't given, and, for people, how its values are written and
/// what they mean.
pub(crate) type OptionEntry = (
    &'static str,
    &'static str,
    &'static str,
    OptionRow,
    &'static str,
);

#[rattlefmt::skip]
pub(crate) static COMMANDS: [CommandEntry; 8] = [
    ("show", CommandRow { command: Command::Show, image: true },
        "prints the table of an image"),
    ("plan", CommandRow { command: Command::Plan, image: true },
        "prints what is to become of the table"),
    ("apply", CommandRow { command: Command::Apply, image: true },
        "changes the image as plan prints it"),
    ("check", CommandRow { command: Command::Check, image: true },
        "tells whether table and hash trees are as apply leaves them"),
    ("dissect", CommandRow { command: Command::Dissect, image: true },
        "prints which partitions an image policy lets be used"),
    ("policy", CommandRow { command: Command::Policy, image: false },
        "prints an image policy in its canonical form"),
    ("make", CommandRow { command: Command::Make, image: true },
        "makes a large image from a number, and checks it"),
    ("compare", CommandRow { command: Command::Compare, image: false },
        "tells whether a policy allows what another denies"),
];

const NEVER: Use = Use::Never;

const MAY: Use = Use::May;

const MUST: Use = Use::Must;

#[rattlefmt::skip]
pub(crate) static OPTIONS: [OptionEntry; 11] = [
    ("definitions", "", "FOLDER[:FOLDER...]", OptionRow { option: Opt::Definitions,
        show: NEVER, plan: MUST, apply: MUST, check: MUST, dissect: NEVER, policy: NEVER, make: NEVER, compare: NEVER },
        "the folders of definition files, see repart.d(5)"),
    ("seed", "", "UUID", OptionRow { option: Opt::Seed,
        show: NEVER, plan: MUST, apply: MUST, check: MUST, dissect: NEVER, policy: NEVER, make: NEVER, compare: NEVER },
        "what identifiers are made from"),
    ("arch", "x86-64", "x86-64|arm64", OptionRow { option: Opt::Arch,
        show: NEVER, plan: MAY, apply: MAY, check: MAY, dissect: MAY, policy: NEVER, make: NEVER, compare: NEVER },
        "the architecture that root, usr and %a stand for"),
    ("empty", "refuse", "refuse|allow|require", OptionRow { option: Opt::Empty,
        show: NEVER, plan: MAY, apply: MAY, check: NEVER, dissect: NEVER, policy: NEVER, make: NEVER, compare: NEVER },
        "whether the image may, or has to, show no table"),
    ("size", "0", "BYTES[B|K|M|G|T]", OptionRow { option: Opt::Size,
        show: NEVER, plan: MAY, apply: MAY, check: NEVER, dissect: NEVER, policy: NEVER, make: NEVER, compare: NEVER },
        "the bytes that the image grows to, if it has fewer"),
    ("json", "off", "off|short", OptionRow { option: Opt::Json,
        show: MAY, plan: MAY, apply: MAY, check: NEVER, dissect: MAY, policy: NEVER, make: NEVER, compare: NEVER },
        "lines of text, or one line of JSON"),
    ("sector-size", "512", "512|4096", OptionRow { option: Opt::SectorSize,
        show: MAY, plan: MAY, apply: MAY, check: MAY, dissect: MAY, policy: NEVER, make: NEVER, compare: NEVER },
        "the bytes of a sector of the disk"),
    ("factory-reset", "off", "off|on", OptionRow { option: Opt::FactoryReset,
        show: NEVER, plan: MAY, apply: MAY, check: NEVER, dissect: NEVER, policy: NEVER, make: NEVER, compare: NEVER },
        "whether partitions with FactoryReset=yes are made anew"),
    ("policy", "*", "POLICY", OptionRow { option: Opt::Policy,
        show: NEVER, plan: NEVER, apply: NEVER, check: NEVER, dissect: MAY, policy: MUST, make: NEVER, compare: MUST },
        "a policy, see image-policy(7); dissect may lack it"),
    ("against", "", "POLICY", OptionRow { option: Opt::Against,
        show: NEVER, plan: NEVER, apply: NEVER, check: NEVER, dissect: NEVER, policy: NEVER, make: NEVER, compare: MUST },
        "the policy that it is compared with"),
    ("number", "", "1...100", OptionRow { option: Opt::Number,
        show: NEVER, plan: NEVER, apply: NEVER, check: NEVER, dissect: NEVER, policy: NEVER, make: MUST, compare: NEVER },
        "the number that the image is made from"),
];

/// The commands by name.
pub(crate) fn commands() -> &'static [CommandEntry]
    ensures { map command_entry result.now ≡ commands }
{
    &COMMANDS
}

/// The options of all commands, by name.
pub(crate) fn options() -> &'static [OptionEntry]
    ensures { map option_entry result.now ≡ options }
{
    &OPTIONS
}
