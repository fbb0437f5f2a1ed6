use rp_findings::{beyond_text, policy_text};
use rp_policy::{compare, parse};
use std::test::Fail;

#[test]
fn with_ample_memory_each_text_is_made(rt: HostRuntime) -> Result<(), Fail> {
    let policy = parse("root=signed+read-only-on:=absent")?;
    let text = policy_text(rt.alloc(), &policy)?;
    assert_eq!(rt;
        text.as_str(),
        "root=signed+read-only-on:=absent
root signed+read-only-on
usr absent
home absent
srv absent
esp absent
xbootldr absent
swap absent
root-verity unprotected+read-only-on
root-verity-sig unprotected+read-only-on
usr-verity absent
usr-verity-sig absent
tmp absent
var absent
"
    );
    let other = parse("root=signed+read-only-off:=absent")?;
    let counter = compare(&policy, &other).ok_or("within")?;
    let text = beyond_text(rt.alloc(), &counter)?;
    assert_eq!(rt;
        text.as_str(),
        "beyond root signed read-only-on growfs-off\n"
    );
    Ok(())
}
