//! Tests of how many idle threads `IdleThreads::take` returns.

use lc_tree::IdleThreads;

/// Returns how many idle threads can be taken, up to `most`. All of them are given back.
fn free(idle: &IdleThreads, most: u32) -> u32 {
    let helpers = idle.take(most);
    let count = helpers.count();
    idle.give_back(helpers);
    count
}

/// Returns how many threads are taken one after another, as many as two each time, while three of five threads are idle, and how many are
/// free after that. A thread that is lent finds work before any is given back.
fn taken_in_turn(idle: &IdleThreads) -> [u32; 4] {
    let two = idle.take(2);
    let one = idle.take(2);
    let (first, second, none) = (two.count(), one.count(), free(idle, 2));
    idle.end();
    idle.give_back(one);
    let still_none = free(idle, 2);
    idle.give_back(two);
    [first, second, none, still_none]
}

#[test]
fn idle_threads_are_taken_once(rt: HostRuntime) {
    let idle = IdleThreads::new(5);
    assert_eq!(&rt; free(&idle, 5), 0);
    for _ in 0..3 {
        idle.begin();
    }
    assert_eq!(&rt; free(&idle, 5), 3);
    assert_eq!(&rt; taken_in_turn(&idle), [2, 1, 0, 0]);
    assert_eq!(&rt; free(&idle, 9), 2);
    // The count of idle threads ends at 0.
    for _ in 0..4 {
        idle.end();
    }
    assert_eq!(&rt; free(&idle, 9), 0);
    idle.begin();
    assert_eq!(&rt; free(&idle, 9), 1);
    // One thread has no helpers.
    assert_eq!(&rt; free(&IdleThreads::all_idle(1), u32::MAX), 0);
    assert_eq!(&rt; free(&IdleThreads::all_idle(4), u32::MAX), 3);
}
