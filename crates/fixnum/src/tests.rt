//! Worked values.
use crate::Fix;

/// The count of an answer, or one that no number has.
fn count(x: Option<Fix>) -> i64 {
    match x {
        Some(f) => f.raw(),
        None => i64::MIN,
    }
}

fn number(raw: i64) -> Fix {
    match Fix::of_raw(raw) {
        Some(f) => f,
        None => Fix::of_raw(0).unwrap(),
    }
}

#[test]
fn counts_up_to_the_size_are_numbers(rt: HostRuntime) {
    assert_eq!(rt; count(Fix::of_raw(1 << 62)), 1 << 62);
    assert_eq!(rt; count(Fix::of_raw(-(1 << 62))), -(1 << 62));
    assert_eq!(rt; count(Fix::of_raw((1 << 62) + 1)), i64::MIN);
}

#[test]
fn sums_out_of_size_are_none(rt: HostRuntime) {
    let most = number(1 << 62);
    assert_eq!(rt; count(most.add(number(-5))), (1 << 62) - 5);
    assert_eq!(rt; count(most.add(number(1))), i64::MIN);
    assert_eq!(rt; count(number(7).sub(number(9))), -2);
    assert_eq!(rt; count(number(-1).sub(most)), i64::MIN);
}

#[test]
fn products_round_as_their_names_say(rt: HostRuntime) {
    assert_eq!(rt; count(number(1 << 62).mul_down(number(1 << 33))), i64::MIN);
    assert_eq!(rt; count(number(-1).mul_down(number(1))), -1);
    assert_eq!(rt; count(number(-1).mul_up(number(1))), 0);
    assert_eq!(rt; count(number(3 << 31).mul_up(number(3 << 31))), 9 << 30);
}

#[test]
fn quotients_round_as_their_names_say(rt: HostRuntime) {
    assert_eq!(rt; count(number(1).div_down(number(0))), i64::MIN);
    assert_eq!(rt; count(number(1).div_up(number(0))), i64::MIN);
    assert_eq!(rt; count(number(1).div_up(number(3 << 32))), 1);
    assert_eq!(rt; count(number(1).div_down(number(3 << 32))), 0);
    assert_eq!(rt;
        count(number(7 << 32).div_down(number(-(2 << 32)))),
        -(7 << 31)
    );
    assert_eq!(rt; count(number(1).div_down(number(-(3 << 32)))), -1);
    assert_eq!(rt; count(number(1).div_up(number(-(3 << 32)))), 0);
}
