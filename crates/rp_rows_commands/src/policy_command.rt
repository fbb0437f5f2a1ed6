use rp_base::List;
use rp_io::MemSink;
use rp_policy_command::{compare, policy};
use std::test::Fail;

#[test]
fn with_ample_memory_each_command_is_done(rt: HostRuntime) -> Result<(), Fail> {
    let alloc = rt.alloc();
    let mut out = MemSink::new(alloc, List::new(alloc));
    assert_eq!(rt; policy(alloc, "*", &mut out), 0);
    assert!(rt; out.bytes().starts_with(b"*\nroot open\n"));
    let mut out = MemSink::new(alloc, List::new(alloc));
    assert_eq!(rt;
        compare(alloc, "root=signed", "root=signed+verity", &mut out),
        0
    );
    assert_eq!(rt; out.bytes(), b"within\n".as_slice());
    let mut out = MemSink::new(alloc, List::new(alloc));
    assert_eq!(rt;
        compare(alloc, "root=signed+verity", "root=signed", &mut out),
        1
    );
    assert_eq!(rt;
        out.bytes(),
        b"beyond root verity read-only-off growfs-off\n".as_slice()
    );
    Ok(())
}
