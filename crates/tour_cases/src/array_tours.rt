use cyc::Tour;
use flips::ArrayTour;
use std::alloc::Global;
use std::test::Fail;

/// The tour 0 1 2 3.
fn four(alloc: Global) -> Result<ArrayTour, Fail> {
    Ok(ArrayTour::new(alloc, &Tour::identity(alloc, 4)?)?)
}

#[test]
fn a_walk_on_meets_the_cities_in_turn(rt: HostRuntime) -> Result<(), Fail> {
    let tour = four(rt.alloc())?;
    assert_eq!(rt; tour.n(), 4);
    assert!(rt; tour.between(0, 2, 3));
    assert!(rt; !tour.between(0, 3, 2));
    assert!(rt; tour.between(2, 0, 1));
    assert_eq!(rt;
        (tour.next(3), tour.prev(0), tour.next(1), tour.prev(1)),
        (0, 3, 2, 0)
    );
    Ok(())
}

#[test]
fn a_flip_turns_the_path_round(rt: HostRuntime) -> Result<(), Fail> {
    let mut tour = four(rt.alloc())?;
    assert_eq!(rt; tour.n(), 4);
    let b = tour.next(0);
    let d = tour.next(2);
    assert_eq!(rt; (b, d), (1, 3));
    tour.flip(0, b, 2, d);
    let form = tour.tour(rt.alloc())?.canonical(rt.alloc())?;
    assert_eq!(rt; form.cities(), [0, 2, 1, 3].as_slice());
    assert_eq!(rt; tour.n(), 4);
    assert_eq!(rt; (tour.next(0), tour.next(1)), (2, 3));
    Ok(())
}

#[test]
fn a_long_path_is_turned_by_its_other_side(rt: HostRuntime) -> Result<(), Fail> {
    let mut tour = ArrayTour::new(rt.alloc(), &Tour::identity(rt.alloc(), 7)?)?;
    assert_eq!(rt; tour.n(), 7);
    tour.reverse_path(1, 6);
    assert_eq!(rt; tour.n(), 7);
    assert_eq!(rt;
        (tour.next(0), tour.next(6), tour.next(1), tour.prev(5)),
        (6, 5, 0, 6)
    );
    assert!(rt; tour.between(6, 3, 1) && !tour.between(1, 6, 0));
    assert_eq!(rt; (tour.at(tour.place(4)), tour.n()), (4, 7));
    Ok(())
}
