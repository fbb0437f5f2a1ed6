ghost use Rattle.std.specs.Prelude.{◌≡◌};

/// The architectures whose partition types are known.
#[derive(Clone, Copy, Debug, PartialEq, Eq)]
pub enum Arch {
    X86_64,
    Arm64,
}

/// What a partition is for, whatever the architecture (systemd.image-policy(7)).
#[derive(Clone, Copy, Debug, PartialEq, Eq)]
pub enum Designator {
    Root,
    Usr,
    Home,
    Srv,
    Esp,
    Xbootldr,
    Swap,
    RootVerity,
    RootVeritySig,
    UsrVerity,
    UsrVeritySig,
    Tmp,
    Var,
}

impl Designator {
    ghost use Rattle.rp_types.specs.Designators.{designator_name};

    /// The name in an image policy (systemd.image-policy(7)), which `by_name` takes too.
    pub fn name(self) -> &'static str
        ensures { result.now ≡ designator_name self }
    {
        match self {
            Designator::Root => "root",
            Designator::Usr => "usr",
            Designator::Home => "home",
            Designator::Srv => "srv",
            Designator::Esp => "esp",
            Designator::Xbootldr => "xbootldr",
            Designator::Swap => "swap",
            Designator::RootVerity => "root-verity",
            Designator::RootVeritySig => "root-verity-sig",
            Designator::UsrVerity => "usr-verity",
            Designator::UsrVeritySig => "usr-verity-sig",
            Designator::Tmp => "tmp",
            Designator::Var => "var",
        }
    }
}
