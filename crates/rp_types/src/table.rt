ghost use Rattle.std.specs.Prelude.{◌≡◌, map};
ghost use Rattle.rp_types.specs.Rules.{IsTable};
ghost use Rattle.rp_types.specs.Table.{types};
ghost use Rattle.rp_types.specs.Types.{as_listed};

use crate::{Arch, Designator, GROW_FILE_SYSTEM, NO_AUTO, READ_ONLY};
use rp_base::Guid;

/// A partition type.
#[derive(Drop)]
pub(crate) struct PartitionType {
    pub(crate) kind: Guid,
    /// The attribute bits that a partition of this type may have.
    pub(crate) bits: u64,
    pub(crate) designator: Option<Designator>,
    /// The architecture whose machines look for this type, or `None` where all do.
    pub(crate) arch: Option<Arch>,
}

impl PartitionType {
    ghost use Rattle.rp_types.specs.Designators.{designator_under};

    /// The designator under an architecture: a type of the other architecture has none.
    pub(crate) fn designator_under(&self, arch: Arch) -> Option<Designator>
        ensures { result ≡ designator_under arch self.now }
    {
        match self.arch {
            Some(own) if own != arch => None,
            _ => self.designator,
        }
    }
}

const NO_BITS: u64 = 0;

const ALL_BITS: u64 = NO_AUTO | READ_ONLY | GROW_FILE_SYSTEM;

/// By name, the types of the Discoverable Partitions Specification for x86-64 and arm64, the EFI system partition (UEFI
/// 2.10, 5.3.3) among them. Which type may have which bits is this program's own rule. The same list with the GUIDs as
/// texts stands in specs/Table.antt, and a type is one row in each.
#[rattlefmt::skip]
pub(crate) static TYPES: [(&str, PartitionType); 20] = [
    // c12a7328-f81f-11d2-ba4b-00a0c93ec93b
    ("esp", PartitionType {
        kind: Guid([0xc1, 0x2a, 0x73, 0x28, 0xf8, 0x1f, 0x11, 0xd2, 0xba, 0x4b, 0x00, 0xa0, 0xc9, 0x3e, 0xc9, 0x3b]),
        bits: NO_BITS, designator: Some(Designator::Esp), arch: None,
    }),
    // bc13c2ff-59e6-4262-a352-b275fd6f7172
    ("xbootldr", PartitionType {
        kind: Guid([0xbc, 0x13, 0xc2, 0xff, 0x59, 0xe6, 0x42, 0x62, 0xa3, 0x52, 0xb2, 0x75, 0xfd, 0x6f, 0x71, 0x72]),
        bits: ALL_BITS, designator: Some(Designator::Xbootldr), arch: None,
    }),
    // 0657fd6d-a4ab-43c4-84e5-0933c84b4f4f
    ("swap", PartitionType {
        kind: Guid([0x06, 0x57, 0xfd, 0x6d, 0xa4, 0xab, 0x43, 0xc4, 0x84, 0xe5, 0x09, 0x33, 0xc8, 0x4b, 0x4f, 0x4f]),
        bits: NO_AUTO, designator: Some(Designator::Swap), arch: None,
    }),
    // 933ac7e1-2eb4-4f13-b844-0e14e2aef915
    ("home", PartitionType {
        kind: Guid([0x93, 0x3a, 0xc7, 0xe1, 0x2e, 0xb4, 0x4f, 0x13, 0xb8, 0x44, 0x0e, 0x14, 0xe2, 0xae, 0xf9, 0x15]),
        bits: ALL_BITS, designator: Some(Designator::Home), arch: None,
    }),
    // 3b8f8425-20e0-4f3b-907f-1a25a76f98e8
    ("srv", PartitionType {
        kind: Guid([0x3b, 0x8f, 0x84, 0x25, 0x20, 0xe0, 0x4f, 0x3b, 0x90, 0x7f, 0x1a, 0x25, 0xa7, 0x6f, 0x98, 0xe8]),
        bits: ALL_BITS, designator: Some(Designator::Srv), arch: None,
    }),
    // 4d21b016-b534-45c2-a9fb-5c16e091fd2d
    ("var", PartitionType {
        kind: Guid([0x4d, 0x21, 0xb0, 0x16, 0xb5, 0x34, 0x45, 0xc2, 0xa9, 0xfb, 0x5c, 0x16, 0xe0, 0x91, 0xfd, 0x2d]),
        bits: ALL_BITS, designator: Some(Designator::Var), arch: None,
    }),
    // 7ec6f557-3bc5-4aca-b293-16ef5df639d1
    ("tmp", PartitionType {
        kind: Guid([0x7e, 0xc6, 0xf5, 0x57, 0x3b, 0xc5, 0x4a, 0xca, 0xb2, 0x93, 0x16, 0xef, 0x5d, 0xf6, 0x39, 0xd1]),
        bits: ALL_BITS, designator: Some(Designator::Tmp), arch: None,
    }),
    // 0fc63daf-8483-4772-8e79-3d69d8477de4
    ("linux-generic", PartitionType {
        kind: Guid([0x0f, 0xc6, 0x3d, 0xaf, 0x84, 0x83, 0x47, 0x72, 0x8e, 0x79, 0x3d, 0x69, 0xd8, 0x47, 0x7d, 0xe4]),
        bits: NO_BITS, designator: None, arch: None,
    }),
    // 4f68bce3-e8cd-4db1-96e7-fbcaf984b709
    ("root-x86-64", PartitionType {
        kind: Guid([0x4f, 0x68, 0xbc, 0xe3, 0xe8, 0xcd, 0x4d, 0xb1, 0x96, 0xe7, 0xfb, 0xca, 0xf9, 0x84, 0xb7, 0x09]),
        bits: ALL_BITS, designator: Some(Designator::Root), arch: Some(Arch::X86_64),
    }),
    // 8484680c-9521-48c6-9c11-b0720656f69e
    ("usr-x86-64", PartitionType {
        kind: Guid([0x84, 0x84, 0x68, 0x0c, 0x95, 0x21, 0x48, 0xc6, 0x9c, 0x11, 0xb0, 0x72, 0x06, 0x56, 0xf6, 0x9e]),
        bits: ALL_BITS, designator: Some(Designator::Usr), arch: Some(Arch::X86_64),
    }),
    // 2c7357ed-ebd2-46d9-aec1-23d437ec2bf5
    ("root-x86-64-verity", PartitionType {
        kind: Guid([0x2c, 0x73, 0x57, 0xed, 0xeb, 0xd2, 0x46, 0xd9, 0xae, 0xc1, 0x23, 0xd4, 0x37, 0xec, 0x2b, 0xf5]),
        bits: NO_AUTO | READ_ONLY, designator: Some(Designator::RootVerity), arch: Some(Arch::X86_64),
    }),
    // 77ff5f63-e7b6-4633-acf4-1565b864c0e6
    ("usr-x86-64-verity", PartitionType {
        kind: Guid([0x77, 0xff, 0x5f, 0x63, 0xe7, 0xb6, 0x46, 0x33, 0xac, 0xf4, 0x15, 0x65, 0xb8, 0x64, 0xc0, 0xe6]),
        bits: NO_AUTO | READ_ONLY, designator: Some(Designator::UsrVerity), arch: Some(Arch::X86_64),
    }),
    // 41092b05-9fc8-4523-994f-2def0408b176
    ("root-x86-64-verity-sig", PartitionType {
        kind: Guid([0x41, 0x09, 0x2b, 0x05, 0x9f, 0xc8, 0x45, 0x23, 0x99, 0x4f, 0x2d, 0xef, 0x04, 0x08, 0xb1, 0x76]),
        bits: NO_AUTO | READ_ONLY, designator: Some(Designator::RootVeritySig), arch: Some(Arch::X86_64),
    }),
    // e7bb33fb-06cf-4e81-8273-e543b413e2e2
    ("usr-x86-64-verity-sig", PartitionType {
        kind: Guid([0xe7, 0xbb, 0x33, 0xfb, 0x06, 0xcf, 0x4e, 0x81, 0x82, 0x73, 0xe5, 0x43, 0xb4, 0x13, 0xe2, 0xe2]),
        bits: NO_AUTO | READ_ONLY, designator: Some(Designator::UsrVeritySig), arch: Some(Arch::X86_64),
    }),
    // b921b045-1df0-41c3-af44-4c6f280d3fae
    ("root-arm64", PartitionType {
        kind: Guid([0xb9, 0x21, 0xb0, 0x45, 0x1d, 0xf0, 0x41, 0xc3, 0xaf, 0x44, 0x4c, 0x6f, 0x28, 0x0d, 0x3f, 0xae]),
        bits: ALL_BITS, designator: Some(Designator::Root), arch: Some(Arch::Arm64),
    }),
    // b0e01050-ee5f-4390-949a-9101b17104e9
    ("usr-arm64", PartitionType {
        kind: Guid([0xb0, 0xe0, 0x10, 0x50, 0xee, 0x5f, 0x43, 0x90, 0x94, 0x9a, 0x91, 0x01, 0xb1, 0x71, 0x04, 0xe9]),
        bits: ALL_BITS, designator: Some(Designator::Usr), arch: Some(Arch::Arm64),
    }),
    // df3300ce-d69f-4c92-978c-9bfb0f38d820
    ("root-arm64-verity", PartitionType {
        kind: Guid([0xdf, 0x33, 0x00, 0xce, 0xd6, 0x9f, 0x4c, 0x92, 0x97, 0x8c, 0x9b, 0xfb, 0x0f, 0x38, 0xd8, 0x20]),
        bits: NO_AUTO | READ_ONLY, designator: Some(Designator::RootVerity), arch: Some(Arch::Arm64),
    }),
    // 6e11a4e7-fbca-4ded-b9e9-e1a512bb664e
    ("usr-arm64-verity", PartitionType {
        kind: Guid([0x6e, 0x11, 0xa4, 0xe7, 0xfb, 0xca, 0x4d, 0xed, 0xb9, 0xe9, 0xe1, 0xa5, 0x12, 0xbb, 0x66, 0x4e]),
        bits: NO_AUTO | READ_ONLY, designator: Some(Designator::UsrVerity), arch: Some(Arch::Arm64),
    }),
    // 6db69de6-29f4-4758-a7a5-962190f00ce3
    ("root-arm64-verity-sig", PartitionType {
        kind: Guid([0x6d, 0xb6, 0x9d, 0xe6, 0x29, 0xf4, 0x47, 0x58, 0xa7, 0xa5, 0x96, 0x21, 0x90, 0xf0, 0x0c, 0xe3]),
        bits: NO_AUTO | READ_ONLY, designator: Some(Designator::RootVeritySig), arch: Some(Arch::Arm64),
    }),
    // c23ce4ff-44bd-4b00-b2d4-b41b3419e02a
    ("usr-arm64-verity-sig", PartitionType {
        kind: Guid([0xc2, 0x3c, 0xe4, 0xff, 0x44, 0xbd, 0x4b, 0x00, 0xb2, 0xd4, 0xb4, 0x1b, 0x34, 0x19, 0xe0, 0x2a]),
        bits: NO_AUTO | READ_ONLY, designator: Some(Designator::UsrVeritySig), arch: Some(Arch::Arm64),
    }),
];

/// The types that have names, each with its name.
pub(crate) fn types() -> &'static [(&'static str, PartitionType)]
    ensures entries { map as_listed result.now ≡ types }
    ensures rule { IsTable types }
{
    &TYPES
}
