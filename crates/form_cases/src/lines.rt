//! Lines and what they say.

use certline::{Item, read_line};
use std::test::Fail;

#[test]
fn each_kind_of_line_is_read(rt: HostRuntime) -> Result<(), Fail> {
    let alloc = rt.alloc();
    assert_eq!(rt; read_line(alloc, 5, b"TSPCERT 1")?, Some(Item::Cert(1)));
    assert_eq!(rt;
        read_line(alloc, 5, b"N 4294967295")?,
        Some(Item::N(4_294_967_295))
    );
    assert_eq!(rt;
        read_line(alloc, 5, b"LENGTH 4398046511104")?,
        Some(Item::Length(4_398_046_511_104))
    );
    assert_eq!(rt; read_line(alloc, 5, b"TSPCERT 2")?, Some(Item::Cert(2)));
    assert_eq!(rt;
        read_line(alloc, 5, b"BOUND 4398046511104")?,
        Some(Item::Bound(4_398_046_511_104))
    );
    assert_eq!(rt; read_line(alloc, 5, b"BOUND 0")?, Some(Item::Bound(0)));
    assert_eq!(rt; read_line(alloc, 5, b"B 1")?, Some(Item::Odd(1)));
    assert_eq!(rt; read_line(alloc, 5, b"B 4095")?, Some(Item::Odd(4095)));
    assert_eq!(rt; read_line(alloc, 5, b"F 1 5")?, Some(Item::Pair(1, 5)));
    assert_eq!(rt; read_line(alloc, 5, b"CUTS 0")?, Some(Item::Cuts(0)));
    assert_eq!(rt; read_line(alloc, 5, b"C 3")?, Some(Item::Comb(3)));
    assert_eq!(rt; read_line(alloc, 5, b"E 1 5")?, Some(Item::Edge(1, 5)));
    assert_eq!(rt;
        read_line(alloc, 5, b"L 5 4096 0")?,
        Some(Item::Leaf(5, 4096, 0))
    );
    assert_eq!(rt;
        read_line(alloc, 5, b"P 5 -4611686018427387904")?,
        Some(Item::City(5, -4_611_686_018_427_387_904))
    );
    assert_eq!(rt; read_line(alloc, 5, b"P 1 7")?, Some(Item::City(1, 7)));
    assert_eq!(rt; read_line(alloc, 5, b"Y 7 1")?, Some(Item::CutDual(7, 1)));
    assert_eq!(rt;
        read_line(alloc, 5, b"Z 2 4611686018427387904")?,
        Some(Item::CondDual(2, 4_611_686_018_427_387_904))
    );
    assert_eq!(rt; read_line(alloc, 5, b"O")?, Some(Item::Open));
    Ok(())
}

#[test]
fn lists_keep_their_numbers_without_the_count(rt: HostRuntime) -> Result<(), Fail> {
    let alloc = rt.alloc();
    let Some(Item::Tour(cities)) = read_line(alloc, 3, b"TOUR 1 9999999999 0")? else {
        return Err(Fail::from("no tour"));
    };
    assert_eq!(rt; cities.as_slice(), [1u64, 9_999_999_999, 0].as_slice());
    let Some(Item::Subtour(set)) = read_line(alloc, 12, b"S 3 1 2 12")? else {
        return Err(Fail::from("no set"));
    };
    assert_eq!(rt; set.as_slice(), [1u32, 2, 12].as_slice());
    assert!(rt; matches!(read_line(alloc, 12, b"H 1 4")?, Some(Item::Handle(_))));
    assert!(rt; matches!(read_line(alloc, 12, b"T 1 4")?, Some(Item::Tooth(_))));
    assert!(rt; matches!(read_line(alloc, 12, b"K 1 4")?, Some(Item::Clique(_))));
    Ok(())
}

#[test]
fn lines_that_are_not_of_the_form_are_none(rt: HostRuntime) -> Result<(), Fail> {
    let alloc = rt.alloc();
    for line in [
        b"".as_slice(),
        b"TSPCERT 3",
        b"TSPCERT 0",
        b"TSPCERT",
        b"N 01",
        b"N 4294967296",
        b"N +1",
        b"N -1",
        b"N  1",
        b"N 1 ",
        b" N 1",
        b"n 1",
        b"N",
        b"LENGTH 4398046511105",
        b"BOUND 4398046511105",
        b"BOUND -1",
        b"BOUND",
        b"B 0",
        b"B 4096",
        b"B 3 1",
        b"F 2 2",
        b"F 2 1",
        b"F 0 1",
        b"F 1 6",
        b"F 1",
        b"E 2 2",
        b"E 0 1",
        b"E 1 6",
        b"L 6 0 0",
        b"L 0 4097 0",
        b"P 1 0",
        b"P 1 -0",
        b"P 1 4611686018427387905",
        b"Y 0 1",
        b"Z 1 99999999999999999999",
        b"S 0",
        b"S 2 1 1",
        b"S 2 2 1",
        b"S 1 6",
        b"S 2 1",
        b"O 1",
        b"O\r",
        b"C 2001",
        b"TOUR 1 2 3 4",
    ] {
        assert!(rt; matches!(read_line(alloc, 5, line)?, None));
    }
    Ok(())
}
