use rp_values::{read_priority, read_size, read_switch, read_weight};

const EXBI: u64 = 1 << 60;

// The greatest size is 2^60 bytes. The expected values are worked out by hand.
#[rattlefmt::skip]
const SIZES: [(&str, Option<u64>); 24] = [
    ("0", Some(0)),
    ("010", Some(10)),
    ("1K", Some(1_024)),
    ("1M", Some(1_048_576)),
    ("1G", Some(1_073_741_824)),
    ("1T", Some(1_099_511_627_776)),
    ("1B", Some(1)),
    ("0000000000000000000000000000005K", Some(5_120)),
    ("1152921504606846976", Some(EXBI)),
    ("1048576T", Some(EXBI)),
    ("1125899906842624K", Some(EXBI)),
    ("1152921504606846977", None),
    ("1125899906842625K", None),
    ("1048577T", None),
    ("1E", None),
    ("18446744073709551616", None),
    ("99999999999999999999T", None),
    ("", None),
    ("B", None),
    ("1.5G", None),
    ("+1", None),
    ("1k", None),
    ("1KB", None),
    ("1 ", None),
];

const WEIGHTS: [(&str, Option<u64>); 10] = [
    ("0", Some(0)),
    ("333", Some(333)),
    ("1000000", Some(1_000_000)),
    ("010", Some(10)),
    ("1000001", None),
    ("99999999999999999999", None),
    ("", None),
    ("+5", None),
    ("-5", None),
    ("1K", None),
];

const PRIORITIES: [(&str, Option<i32>); 16] = [
    ("0", Some(0)),
    ("+0", Some(0)),
    ("-0", Some(0)),
    ("010", Some(10)),
    ("-12", Some(-12)),
    ("-2147483648", Some(i32::MIN)),
    ("2147483647", Some(2_147_483_647)),
    ("+2147483647", Some(2_147_483_647)),
    ("-2147483649", None),
    ("2147483648", None),
    ("", None),
    ("+", None),
    ("-", None),
    ("--1", None),
    ("1.0", None),
    ("1K", None),
];

#[rattlefmt::skip]
const SWITCHES: [(&str, Option<bool>); 44] = [
    ("1", Some(true)),
    ("yes", Some(true)), ("YES", Some(true)), ("yEs", Some(true)),
    ("y", Some(true)), ("Y", Some(true)),
    ("true", Some(true)), ("TRUE", Some(true)), ("True", Some(true)),
    ("t", Some(true)), ("T", Some(true)),
    ("on", Some(true)), ("ON", Some(true)), ("oN", Some(true)),
    ("0", Some(false)),
    ("no", Some(false)), ("NO", Some(false)), ("nO", Some(false)),
    ("n", Some(false)), ("N", Some(false)),
    ("false", Some(false)), ("FALSE", Some(false)), ("False", Some(false)),
    ("f", Some(false)), ("F", Some(false)),
    ("off", Some(false)), ("OFF", Some(false)), ("oFF", Some(false)),
    ("maybe", None), ("", None), ("2", None), ("onn", None), ("o", None), ("of", None),
    ("ye", None), ("tru", None), ("falsey", None), ("10", None), ("01", None), (" 1", None), ("1 ", None),
    ("yes no", None), ("+1", None), ("ye\u{17f}", None),
];

#[test]
fn sizes(rt: HostRuntime) {
    for (text, size) in SIZES {
        assert_eq!(rt; read_size(text), size);
    }
}

#[test]
fn weights(rt: HostRuntime) {
    for (text, weight) in WEIGHTS {
        assert_eq!(rt; read_weight(text), weight);
    }
}

#[test]
fn priorities(rt: HostRuntime) {
    for (text, priority) in PRIORITIES {
        assert_eq!(rt; read_priority(text), priority);
    }
}

#[test]
fn switches(rt: HostRuntime) {
    for (text, switch) in SWITCHES {
        assert_eq!(rt; read_switch(text), switch);
    }
}
