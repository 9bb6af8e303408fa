use lattice::Timestamp;
use lines::{LineReader, Malformed, MessageBlock, Time, check_lines};
use std::test::Fail;
use timetable::{Amount, Lesson};

// Malformed files, and the number of the first malformed line of each.
const MALFORMED: [(&str, usize); 24] = [
    ("\n", 1),
    ("X\n", 1),
    ("E\n", 1),
    ("R\nE\nU\t0\t0\t1\t1\t1\t1\n", 3),
    ("R\nR\nE\n", 2),
    ("R\nL\t0\t0\nE\n", 2),
    ("R\t\nE\n", 1),
    ("R\nU\t0\t0\t1\t1\t1\nE\n", 2),
    ("R\nU\t0\t0\t1\t1\t1\t1\t1\nE\n", 2),
    ("R\nU\t0\t0\t1\t1\t1\t-0\nE\n", 2),
    ("R\nU\t0\t0\t1\t1\t1\t+1\nE\n", 2),
    ("R\nU\t0\t0\t1\t1\t1\t-1001\nE\n", 2),
    ("R\nU\t0\t0\t007\t1\t1\t1\nE\n", 2),
    ("R\nU\t0\t0\t1\t201\t1\t1\nE\n", 2),
    ("R\nU\t18446744073709551616\t0\t1\t1\t1\t1\nE\n", 2),
    ("R\nU\t0\t202653\t1\t1\t1\t1\nE\n", 2),
    ("S\nU\t0\t0\t1\t1\t1\t1\nE\n", 2),
    ("S\nH\t0\t0\nL\t0\t0\nE\n", 3),
    ("S\nC\t0\t0\t1\nH\t0\t0\nE\n", 3),
    ("S\nC\t0\t0\t4294967296\nE\n", 2),
    ("S\nC\t0\t0\t\nE\n", 2),
    ("R\nE", 2),
    ("R\n", 2),
    ("S\nE\nS\nL\t0\t0\n", 5),
];

// Well formed files, and how many messages each has.
const WELL_FORMED: [(&str, usize); 4] = [
    ("", 0),
    ("R\nE\nS\nE\n", 2),
    (
        "S\nL\t0\t0\nH\t1\t0\nC\t0\t202637\t1\nE\nR\nU\t0\t202637\t11\t4\t23\t-1000\nE\n",
        2,
    ),
    ("S\nC\t18446744073709551615\t219952\t4294967295\nE\n", 1),
];

fn empty_block() -> Result<MessageBlock, Fail> {
    Ok(MessageBlock::new((Lesson::new(1, 1, 1)?, Time::minimum(), Amount::new(0)?)))
}

#[test]
fn the_first_malformed_line_is_named(rt: HostRuntime) -> Result<(), Fail> {
    let mut block = empty_block()?;
    for (file, line) in MALFORMED {
        assert_eq!(rt;
            check_lines(file.as_bytes(), &mut block),
            Err(Malformed { line })
        );
    }
    Ok(())
}

#[test]
fn messages_are_read_in_order(rt: HostRuntime) -> Result<(), Fail> {
    let mut block = empty_block()?;
    for (file, messages) in WELL_FORMED {
        assert!(rt; check_lines(file.as_bytes(), &mut block).is_ok());
        let mut lines = LineReader::new(file.as_bytes());
        for _ in 0..messages {
            assert!(rt; matches!(block.read(&mut lines), Ok(true)));
            assert!(rt; block.is_whole());
        }
        assert!(rt; matches!(block.read(&mut lines), Ok(false)));
    }
    Ok(())
}
