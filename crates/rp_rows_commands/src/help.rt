use rp_words::help_text;
use std::test::Fail;

#[test]
fn with_ample_memory_help_begins_and_ends(rt: HostRuntime) -> Result<(), Fail> {
    let text = help_text(rt.alloc())?;
    let text = text.as_str();
    assert!(rt; text.starts_with("repart works"));
    assert!(rt;
        text.contains(
            "\n    repart show\n        [--json=off|short]\n        [--sector-size=512|4096]\n        IMAGE\n"
        )
    );
    assert!(rt;
        text.contains(
            "\n    --json=off|short\n        lines of text, or one line of JSON; off if not given\n"
        )
    );
    assert!(rt; text.contains("\n    repart make\n        --number=1...100\n        IMAGE\n"));
    Ok(())
}
