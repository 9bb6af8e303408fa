use frontier::steps::extend;
use frontier::{
    antichain_equal, antichain_join_into, antichain_less_equal, antichain_meet, insert, is_beyond,
    update,
};
use lattice::Product;
use questions::Refusal;
use std::test::Fail;

type Pair = Product<u64, u64>;

fn pair(outer: u64, inner: u64) -> Pair {
    Product { outer, inner }
}

const NOWHERE: Pair = Product { outer: 9, inner: 9 };

// Times of which no two are ordered.
fn unordered() -> [Pair; 40] {
    std::array::from_fn(|i| pair(i as u64, 40 - i as u64))
}

#[test]
fn a_frontier_has_32_times_at_most(rt: HostRuntime) -> Result<(), Fail> {
    let times = unordered();
    let mut table = [NOWHERE; 40];
    let len = extend(&mut table, 0, &times[0..32])?;
    assert_eq!(rt; len, 32);
    assert_eq!(rt; insert(&mut table, len, times[32]), Err(Refusal::ManyTimes));
    assert_eq!(rt; insert(&mut table, len, pair(31, 40)), Ok(32));
    assert_eq!(rt; insert(&mut table, len, pair(0, 0)), Ok(1));
    assert_eq!(rt;
        insert(&mut table, 33, pair(0, 0)),
        Err(Refusal::ShortTable)
    );
    let mut short = [NOWHERE; 31];
    assert_eq!(rt; insert(&mut short, 0, pair(0, 0)), Err(Refusal::ShortTable));
    Ok(())
}

#[test]
fn a_join_is_made_of_all_pairs_and_written_only_when_it_fits(rt: HostRuntime) {
    let mut upper = [NOWHERE; 32];
    let mut scratch = [NOWHERE; 32];
    assert_eq!(rt;
        antichain_join_into(&[pair(2, 0)], &[pair(0, 1)], &mut upper, &mut scratch),
        Ok(1)
    );
    assert!(rt; upper[0].outer == 2 && upper[0].inner == 1);
    let times = unordered();
    let start = [pair(0, 0)];
    let many = antichain_join_into(&times[0..33], &start, &mut upper, &mut scratch);
    assert_eq!(rt; many, Err(Refusal::ManyTimes));
    assert!(rt; upper[0].outer == 2 && upper[1].outer == 9);
    assert_eq!(rt;
        antichain_join_into(&times[0..32], &start, &mut upper, &mut scratch),
        Ok(32)
    );
    let short = antichain_join_into(&start, &start, &mut upper, &mut scratch[0..31]);
    assert_eq!(rt; short, Err(Refusal::ShortTable));
}

#[test]
fn a_meet_has_the_first_list_first(rt: HostRuntime) {
    let mut lower = [NOWHERE; 32];
    let mut scratch = [NOWHERE; 32];
    let one = [pair(3, 0), pair(0, 3)];
    let other = [pair(1, 1), pair(4, 0)];
    assert_eq!(rt;
        antichain_meet(&one, &other, &mut lower, &mut scratch),
        Ok(3)
    );
    assert!(rt; lower[0].outer == 3 && lower[1].outer == 0 && lower[2].outer == 1);
    assert!(rt; lower[3].outer == 9);
    assert!(rt;
        antichain_less_equal(&lower[0..3], &one) && !antichain_less_equal(&one, &lower[0..3])
    );
    assert!(rt; antichain_equal(&one, &[pair(0, 3), pair(3, 0)]) && !antichain_equal(&one, &other));
    assert!(rt; is_beyond(&one, &pair(3, 2)) && !is_beyond(&one, &pair(2, 2)));
}

// Counts one change at each round below n.
fn count_each(table: &mut [(u64, i64)], n: u64) -> Result<usize, Refusal> {
    let mut len = 0;
    for i in 0..n {
        len = update(table, len, 1024, i, 1)?;
    }
    Ok(len)
}

#[test]
fn a_table_of_counts_has_its_limit(rt: HostRuntime) -> Result<(), Fail> {
    let mut table = [(0u64, 0i64); 1100];
    let len = count_each(&mut table, 1024)?;
    assert_eq!(rt; len, 1024);
    assert_eq!(rt;
        update(&mut table, len, 1024, 5000, 1),
        Err(Refusal::ManyCounts)
    );
    assert_eq!(rt; update(&mut table, len, 1024, 5000, 0), Ok(1024));
    assert_eq!(rt; update(&mut table, len, 1024, 7, 2), Ok(1024));
    assert!(rt; table[7].0 == 7 && table[7].1 == 3);
    assert_eq!(rt; update(&mut table, len, 1024, 6, -1), Ok(1023));
    assert!(rt; table[6].0 == 7 && table[1022].0 == 1023);
    assert_eq!(rt;
        update(&mut table, 1025, 1024, 0, 1),
        Err(Refusal::ShortTable)
    );
    let mut short = [(0u64, 0i64); 1023];
    assert_eq!(rt; update(&mut short, 0, 1024, 0, 1), Err(Refusal::ShortTable));
    Ok(())
}

#[test]
fn a_count_stops_at_the_ends_of_64_bits(rt: HostRuntime) {
    let mut table = [(0u64, 0i64); 4];
    assert_eq!(rt; update(&mut table, 0, 4, 3, i64::MAX), Ok(1));
    assert_eq!(rt; update(&mut table, 1, 4, 3, 1), Ok(1));
    assert!(rt; table[0].1 == i64::MAX);
    assert_eq!(rt; update(&mut table, 1, 4, 8, i64::MIN), Ok(2));
    assert_eq!(rt; update(&mut table, 2, 4, 8, -1), Ok(2));
    assert!(rt; table[1].1 == i64::MIN);
    assert_eq!(rt; update(&mut table, 2, 4, 3, -i64::MAX), Ok(1));
    assert!(rt; table[0].0 == 8);
}
