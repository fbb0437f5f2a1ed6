ghost use Rattle.std.specs.Prelude.{◌≡◌, ◌≤◌, ◌∷◌, None, Some, IfOk, IfSome, MatchOption, length, string_bytes};
ghost use Rattle.std.specs.Option.{option_map};
ghost use Rattle.rp_types.specs.Designators.{arch_name};
ghost use Rattle.rp_values.specs.Texts.{expanded, joined};

use rp_base::Memory;
use rp_types::Arch;
use std::alloc::Global;

// A text with its specifiers replaced. `None` where a percent sign isn't followed by `%` or `a`.
pub(crate) fn expanded(alloc: Global, text: &str, arch: Arch) -> Result<Option<String>, Memory>
    ensures { IfOk result (λ whole. option_map string_bytes whole ≡ expanded arch text.now) }
{
    let mut whole = String::new(alloc);
    let mut rest = text;
    while let Some((front, behind)) = rest.split_once('%') {
        let Some((meaning, after)) = specifier(behind, arch) else {
            return Ok(None);
        };
        whole.push_str(front)?;
        whole.push_str(meaning)?;
        rest = after;
    }
    whole.push_str(rest)?;
    Ok(Some(whole))
}

// What the letter behind a percent sign stands for, and the text behind it.
fn specifier(text: &str, arch: Arch) -> Option<(&str, &str)>
    ensures meaning { MatchOption result (expanded arch (37 ∷ text.now) ≡ None)
        (λ pair. expanded arch (37 ∷ text.now) ≡ joined (Some pair.0.now) (expanded arch pair.1.now)) }
    ensures within { IfSome result (λ pair. length pair.1.now ≤ length text.now) }
{
    if let Some(after) = text.strip_prefix('%') {
        return Some(("%", after));
    }
    let after = text.strip_prefix('a')?;
    Some((name(arch), after))
}

// The architecture's name in names of partition types.
fn name(arch: Arch) -> &'static str
    ensures { result.now ≡ arch_name arch }
{
    match arch {
        Arch::X86_64 => "x86-64",
        Arch::Arm64 => "arm64",
    }
}
