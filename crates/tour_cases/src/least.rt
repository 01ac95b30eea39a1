use std::test::Fail;
use tournament::Tournament;

#[test]
fn the_least_key_comes_first(rt: HostRuntime) -> Result<(), Fail> {
    let mut free = Tournament::new(rt.alloc(), 5)?;
    assert_eq!(rt; free.least(), None);
    free.set(4, Some(3));
    free.set(1, Some(7));
    assert_eq!(rt; free.least(), Some(4));
    free.set(0, Some(-2));
    assert_eq!(rt; free.least(), Some(0));
    free.set(0, None);
    free.set(4, None);
    assert_eq!(rt; free.least(), Some(1));
    Ok(())
}

#[test]
fn of_equal_keys_the_lower_number_comes_first(rt: HostRuntime) -> Result<(), Fail> {
    let mut free = Tournament::new(rt.alloc(), 3)?;
    free.set(2, Some(5));
    free.set(1, Some(5));
    assert_eq!(rt; free.least(), Some(1));
    let mut one = Tournament::new(rt.alloc(), 1)?;
    one.set(0, Some(1));
    assert_eq!(rt; one.least(), Some(0));
    Ok(())
}
