use cyc::Tour;
use std::test::Fail;
use tourfmt::print;

#[test]
fn the_text_of_a_square(rt: HostRuntime) -> Result<(), Fail> {
    let text = print(rt.alloc(), &Tour::identity(rt.alloc(), 4)?)?;
    assert_eq!(rt;
        text.as_str(),
        "NAME : tour\nTYPE : TOUR\nDIMENSION : 4\nTOUR_SECTION\n1\n2\n3\n4\n-1\nEOF\n"
    );
    Ok(())
}

#[test]
fn the_text_is_of_the_canonical_form(rt: HostRuntime) -> Result<(), Fail> {
    let Ok(tour) = Tour::new(rt.alloc(), 4, vec![in rt.alloc(); 2, 0, 3, 1]?) else {
        return Ok(());
    };
    let text = print(rt.alloc(), &tour)?;
    assert!(rt;
        text.as_str()
            .ends_with("TOUR_SECTION\n1\n3\n2\n4\n-1\nEOF\n")
    );
    Ok(())
}
