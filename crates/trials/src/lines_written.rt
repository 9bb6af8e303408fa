use capture::{Message, Progress, Writer};
use lattice::Timestamp;
use lines::Time;
use std::test::Fail;
use timetable::{Amount, Lesson, Week};
use writing::{Full, LineWriter, LinesPost};

// A statement and a change.
const FILE: &[u8] =
    b"S\nL\t0\t0\nH\t1\t0\nC\t0\t202637\t1\nE\nR\nU\t0\t202637\t11\t4\t23\t-1000\nE\n";

fn at(outer: u64, week: u64) -> Result<Time, Fail> {
    let inner = Week::new(week)?;
    Ok(Time { outer, inner })
}

#[test]
fn messages_are_written_until_the_bytes_are_full(rt: HostRuntime) -> Result<(), Fail> {
    let lower = [Time::minimum()];
    let upper = [at(1, 0)?];
    let counts = [(at(0, 202637)?, 1)];
    let statement = Message::Progress(Progress {
        lower: &lower,
        upper: &upper,
        counts: &counts,
    });
    let changes = [(Lesson::new(11, 4, 23)?, at(0, 202637)?, Amount::new(-1000)?)];
    let mut bytes = [0u8; 64];
    let mut post = LinesPost::new(&mut bytes);
    assert_eq!(rt; post.poll(&statement), None);
    assert!(rt; !post.done());
    assert_eq!(rt; post.poll(&Message::Updates(&changes)), None);
    post.flush();
    assert!(rt; post.done());
    assert_eq!(rt; post.file(), FILE);
    // a third does not fit, and the file stays
    assert_eq!(rt; post.poll(&statement), Some(250));
    assert_eq!(rt; post.file(), FILE);
    Ok(())
}

#[test]
fn lines_are_written_behind_others(rt: HostRuntime) -> Result<(), Fail> {
    let mut bytes = *b"E\n--------";
    let mut lines = LineWriter::behind(&mut bytes, 2);
    assert_eq!(rt; lines.line(b'I', &[1, 20]), Ok(()));
    assert_eq!(rt; lines.written(), b"E\nI\t1\t20\n".as_slice());
    assert_eq!(rt; lines.entries(b'F', &[Time::minimum()]), Err(Full));
    lines.truncate(2);
    assert_eq!(rt; lines.entries(b'F', &[Time::minimum()]), Ok(()));
    assert_eq!(rt; lines.written(), b"E\nF\t0\t0\n".as_slice());
    Ok(())
}
