use cyc::{CitySet, CitySetError, Entry, Frac, FracError, Tour, TourError};
use std::alloc::Global;
use std::test::Fail;

fn four_cities(alloc: Global) -> Result<Tour, Fail> {
    Ok(Tour::new(alloc, 4, vec![in alloc; 2, 1, 0, 3]?)?)
}

fn set_of_four(alloc: Global, first: u32, second: u32) -> Result<CitySet, Fail> {
    Ok(CitySet::new(alloc, 4, vec![in alloc; first, second]?)?)
}

#[test]
fn a_repeated_city_is_no_tour(rt: HostRuntime) -> Result<(), Fail> {
    let cities = vec![in rt.alloc(); 0, 1, 1, 3]?;
    let error = Tour::new(rt.alloc(), 4, cities).err();
    assert_eq!(rt; error, Some(TourError::NotATour));
    Ok(())
}

#[test]
fn the_canonical_form_begins_at_home(rt: HostRuntime) -> Result<(), Fail> {
    let form = four_cities(rt.alloc())?.canonical(rt.alloc())?;
    assert_eq!(rt; form.n(), 4);
    assert_eq!(rt; form.cities(), [0, 1, 2, 3].as_slice());
    assert_eq!(rt; Tour::identity(rt.alloc(), 4)?, form);
    Ok(())
}

#[test]
fn a_tour_crosses_sets(rt: HostRuntime) -> Result<(), Fail> {
    let form = four_cities(rt.alloc())?.canonical(rt.alloc())?;
    let apart = set_of_four(rt.alloc(), 0, 2)?;
    let beside = set_of_four(rt.alloc(), 0, 1)?;
    assert_eq!(rt; form.n(), apart.n());
    assert_eq!(rt; form.n(), beside.n());
    assert_eq!(rt; form.crossings(&apart), 4);
    assert_eq!(rt; form.crossings(&beside), 2);
    Ok(())
}

#[test]
fn sets_rise(rt: HostRuntime) -> Result<(), Fail> {
    let falling = CitySet::new(rt.alloc(), 4, vec![in rt.alloc(); 2, 1]?).err();
    assert_eq!(rt; falling, Some(CitySetError::NotRising));
    let all = CitySet::new(rt.alloc(), 4, vec![in rt.alloc(); 0, 1, 2, 3]?)?;
    assert!(rt; !all.is_proper());
    assert!(rt; set_of_four(rt.alloc(), 0, 1)?.is_proper());
    Ok(())
}

#[test]
fn a_set_knows_its_cities(rt: HostRuntime) -> Result<(), Fail> {
    let set = CitySet::new(rt.alloc(), 130, vec![in rt.alloc(); 63, 64, 129]?)?;
    assert_eq!(rt; set.n(), 130);
    assert!(rt; set.contains(63) && set.contains(64) && set.contains(129));
    assert!(rt; !set.contains(0) && !set.contains(65) && !set.contains(1000));
    Ok(())
}

/// Sets of one city, of four, which have no marks, and of five, which have.
#[test]
fn small_sets_know_their_cities(rt: HostRuntime) -> Result<(), Fail> {
    let one = CitySet::new(rt.alloc(), 2000, vec![in rt.alloc(); 1999]?)?;
    assert!(rt; one.contains(1999) && !one.contains(0) && !one.contains(1998));
    let four = CitySet::new(rt.alloc(), 130, vec![in rt.alloc(); 0, 63, 64, 129]?)?;
    assert!(rt; four.contains(0) && four.contains(64) && four.contains(129) && !four.contains(65));
    let five = CitySet::new(rt.alloc(), 130, vec![in rt.alloc(); 0, 1, 63, 64, 129]?)?;
    assert!(rt; five.contains(0) && five.contains(64) && five.contains(129) && !five.contains(65));
    assert_eq!(rt; five.copy(rt.alloc())?, five);
    Ok(())
}

#[test]
fn copies_are_equal(rt: HostRuntime) -> Result<(), Fail> {
    let tour = four_cities(rt.alloc())?;
    assert_eq!(rt; tour.copy(rt.alloc())?, tour);
    assert_ne!(rt; tour.canonical(rt.alloc())?, tour);
    let set = set_of_four(rt.alloc(), 0, 1)?;
    assert_eq!(rt; set.copy(rt.alloc())?, set);
    assert_ne!(rt; set_of_four(rt.alloc(), 0, 2)?, set);
    Ok(())
}

#[test]
fn a_pair_has_one_entry(rt: HostRuntime) -> Result<(), Fail> {
    let one = Entry { u: 0, v: 1, x: 5 };
    let turned = Entry { u: 1, v: 0, x: 5 };
    let error = Frac::new(rt.alloc(), 3, vec![in rt.alloc(); one, turned]?).err();
    assert_eq!(rt; error, Some(FracError::BadEntry(1)));
    Ok(())
}

#[test]
fn pairs_have_values(rt: HostRuntime) -> Result<(), Fail> {
    let one = Entry {
        u: 2,
        v: 0,
        x: 0x4000_0000,
    };
    let none = Entry { u: 1, v: 2, x: 0 };
    let values = Frac::new(rt.alloc(), 3, vec![in rt.alloc(); one, none]?)?;
    assert_eq!(rt; values.n(), 3);
    assert_eq!(rt; values.entries(), [one, none].as_slice());
    assert_eq!(rt; values.x(0, 2), 0x4000_0000);
    assert_eq!(rt; values.x(2, 0), 0x4000_0000);
    assert_eq!(rt; values.x(1, 2), 0);
    assert_eq!(rt; values.x(0, 1), 0);
    Ok(())
}
