use crate::report::report;
use std::test::Fail;

// Malformed inputs, and what the program says of each.
const MALFORMED: [(&str, &str); 11] = [
    ("\n", "line 1: expected L or H, then a tab"),
    ("X\t1\t0\n", "line 1: expected L or H, then a tab"),
    ("LL\t1\t0\n", "line 1: expected L or H, then a tab"),
    (
        "L\t1\t0\nH\t01\t0\n",
        "line 2: expected a round, 0 to 18446744073709551615 without leading zeros, then a tab",
    ),
    (
        "L\t18446744073709551616\t0\n",
        "line 1: expected a round, 0 to 18446744073709551615 without leading zeros, then a tab",
    ),
    (
        "L\t7\n",
        "line 1: expected a round, 0 to 18446744073709551615 without leading zeros, then a tab",
    ),
    (
        "L\t7\t202653\n",
        "line 1: expected a week, 0 or yyyyww with year 2000 to 2199 and week 01 to 52",
    ),
    (
        "L\t7\t\n",
        "line 1: expected a week, 0 or yyyyww with year 2000 to 2199 and week 01 to 52",
    ),
    (
        "L\t7\t0\t0\n",
        "line 1: expected a week, 0 or yyyyww with year 2000 to 2199 and week 01 to 52",
    ),
    ("L\t7\t0", "line 1: expected byte 10 at the end of the line"),
    ("Q\nL\t7\t0", "line 1: expected L or H, then a tab"),
];

#[test]
fn a_malformed_line_is_named(rt: HostRuntime) -> Result<(), Fail> {
    let heap = rt.alloc();
    for (input, said) in MALFORMED {
        match report(heap, input.as_bytes()) {
            Ok(_) => return Err(Fail::new("a malformed input was read")),
            Err(fault) => assert!(rt; format!(in heap; "{fault}")?.as_str() == said),
        }
    }
    Ok(())
}

// The largest round, the empty input, and lists that come to one frontier.
const WELL_FORMED: [(&str, &str); 2] = [
    (
        "",
        "lines read: 0\nfirst frontier: none\nsecond frontier: none\nfirst at or before second: yes\nsecond at or before first: yes\nmeet, what both offices may rely on: none\njoin: none\n",
    ),
    (
        "L\t18446744073709551615\t0\nH\t2\t219952\nH\t3\t219952\nL\t18446744073709551615\t200001\n",
        "lines read: 4\nfirst frontier: (18446744073709551615, 0)\nsecond frontier: (2, 219952)\nfirst at or before second: no\nsecond at or before first: no\nmeet, what both offices may rely on: (18446744073709551615, 0) (2, 219952)\njoin: (18446744073709551615, 219952)\n",
    ),
];

#[test]
fn the_report_tells_both_frontiers(rt: HostRuntime) -> Result<(), Fail> {
    let heap = rt.alloc();
    for (input, said) in WELL_FORMED {
        match report(heap, input.as_bytes()) {
            Ok(text) => assert!(rt; text.as_str() == said),
            Err(_) => return Err(Fail::new("a well formed input was refused")),
        }
    }
    Ok(())
}

// Times of which no two are ordered: the rounds go up and the weeks go down.
fn unordered(heap: std::alloc::Global, count: u64) -> Result<String, Fail> {
    let mut text = String::new(heap);
    for i in 0..count {
        let week = 202652u64.saturating_sub(i);
        text.push_str(format!(in heap; "L\t{i}\t{week}\n")?.as_str())?;
    }
    Ok(text)
}

#[test]
fn thirty_two_times_fit_and_one_more_does_not(rt: HostRuntime) -> Result<(), Fail> {
    let heap = rt.alloc();
    assert!(rt; report(heap, unordered(heap, 32)?.as_bytes()).is_ok());
    match report(heap, unordered(heap, 33)?.as_bytes()) {
        Ok(_) => Err(Fail::new("33 times were taken")),
        Err(fault) => {
            let said = "refused, question 12: a frontier has more than 32 times";
            assert!(rt; format!(in heap; "{fault}")?.as_str() == said);
            Ok(())
        }
    }
}
