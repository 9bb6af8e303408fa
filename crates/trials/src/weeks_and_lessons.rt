use lattice::{Lattice, PartialOrder, Same, Timestamp};
use std::test::Fail;
use timetable::{Amount, Choice, Lesson, OptionForm, Week};

// Numbers, and whether each is a week.
const WEEKS: [(u64, bool); 11] = [
    (199952, false),
    (200000, false),
    (200001, true),
    (200052, true),
    (200053, false),
    (219952, true),
    (219953, false),
    (220001, false),
    (0, true),
    (1, false),
    (1_099_511_627_776, false),
];

#[test]
fn weeks_have_their_form(rt: HostRuntime) {
    for (n, good) in WEEKS {
        match Week::new(n) {
            Ok(week) => assert!(rt; good && week.number() as u64 == n),
            Err(refusal) => assert!(rt; !good && refusal.number() == 14),
        }
    }
}

// Class, room and period, and whether they make a lesson.
const LESSONS: [((u64, u64, u64), bool); 8] = [
    ((1, 1, 1), true),
    ((9_999, 200, 50), true),
    ((0, 1, 1), false),
    ((10_000, 1, 1), false),
    ((1, 0, 1), false),
    ((1, 201, 1), false),
    ((1, 1, 0), false),
    ((1, 1, 51), false),
];

#[test]
fn lessons_have_their_form(rt: HostRuntime) {
    for (given, good) in LESSONS {
        match Lesson::new(given.0, given.1, given.2) {
            Ok(l) => {
                let read = (l.class() as u64, l.room() as u64, l.period() as u64);
                assert!(rt; good && read == given);
            }
            Err(refusal) => assert!(rt; !good && refusal.number() == 14),
        }
    }
}

// Numbers, and whether each is a lesson amount.
const AMOUNTS: [(i64, bool); 5] = [
    (-1_001, false),
    (-1_000, true),
    (0, true),
    (1_000, true),
    (1_001, false),
];

// Kept beside the test of weeks: one for both would need a reading of numbers of both types.
#[test]
fn amounts_have_their_form(rt: HostRuntime) {
    for (n, good) in AMOUNTS {
        match Amount::new(n) {
            Ok(amount) => assert!(rt; good && amount.number() as i64 == n),
            Err(refusal) => assert!(rt; !good && refusal.number() == 14),
        }
    }
}

#[test]
fn weeks_are_ordered_as_numbers(rt: HostRuntime) -> Result<(), Fail> {
    // the earlier week first
    for (a, b) in [(0, 200001), (200052, 200101), (202637, 202637)] {
        let earlier = Week::new(a)?;
        let later = Week::new(b)?;
        assert!(rt; earlier.less_equal(&later));
        assert_eq!(rt; later.less_equal(&earlier), a == b);
        assert_eq!(rt; earlier.join(&later).number(), later.number());
        assert_eq!(rt; later.meet(&earlier).number(), earlier.number());
        assert!(rt; Week::minimum().less_equal(&earlier));
    }
    Ok(())
}

#[test]
fn lessons_and_amounts_are_compared_by_all_their_numbers(rt: HostRuntime) -> Result<(), Fail> {
    let lesson = Lesson::new(11, 4, 23)?;
    for (class, room, period) in [(12, 4, 23), (11, 5, 23), (11, 4, 24)] {
        assert!(rt; !lesson.same(&Lesson::new(class, room, period)?));
    }
    assert!(rt; lesson.same(&Lesson::new(11, 4, 23)?));
    assert!(rt; Amount::new(-1)?.same(&Amount::new(-1)?));
    assert!(rt; !Amount::new(-1)?.same(&Amount::new(1)?));
    Ok(())
}

fn form(pupil: u16, choice: Choice) -> OptionForm {
    OptionForm { pupil, choice }
}

#[test]
fn option_forms_are_the_same_in_every_part(rt: HostRuntime) {
    let choices = [
        Choice::Wants(3),
        Choice::Wants(4),
        Choice::Reserves(3),
        Choice::Reserves(4),
        Choice::Withdraws,
    ];
    for (i, one) in choices.iter().enumerate() {
        for (j, other) in choices.iter().enumerate() {
            assert_eq!(rt; form(7, *one).same(&form(7, *other)), i == j);
            assert!(rt; !form(7, *one).same(&form(8, *other)));
        }
    }
}
