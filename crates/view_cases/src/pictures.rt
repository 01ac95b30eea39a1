//! Pictures, worked out by hand.

use distx::Point;
use picture::{
    Bar, Census, Drawing, Layout, Node, Spot, bars, depths, draw, on_circle, on_plane, take_census,
};
use std::alloc::AllocError;
use std::test::Fail;

/// Whether places are these.
fn stand_at(spots: &[Spot], want: &[(u32, u32)]) -> bool {
    spots.len() == want.len()
        && spots
            .iter()
            .zip(want.iter())
            .all(|(spot, want)| (spot.x, spot.y) == *want)
}

#[test]
fn where_points_stand(rt: HostRuntime) -> Result<(), Fail> {
    let alloc = rt.alloc();
    // twice as wide as high: 20 units a step, and 240 above and below; a higher point is nearer to the top
    let points = [
        Point::new(-10, 5),
        Point::new(38, 29),
        Point::new(38, 5),
        Point::new(14, 17),
    ];
    assert!(rt;
        stand_at(
            &on_plane(alloc, &points)?,
            &[(20, 740), (980, 260), (980, 740), (500, 500)]
        )
    );
    // as far apart as points can be
    let far = [
        Point::new(-16777216, 16777216),
        Point::new(16777216, -16777216),
    ];
    assert!(rt; stand_at(&on_plane(alloc, &far)?, &[(20, 20), (980, 980)]));
    // points on one place stand in the middle, and nearer ones than a step on one
    let one = [Point::new(7, 7), Point::new(7, 7)];
    assert!(rt; stand_at(&on_plane(alloc, &one)?, &[(500, 500), (500, 500)]));
    assert!(rt; stand_at(&on_plane(alloc, &[])?, &[]));
    // the first at the top, and on as a clock goes
    assert!(rt;
        stand_at(
            &on_circle(alloc, 4)?,
            &[(500, 40), (960, 500), (500, 960), (40, 500)]
        )
    );
    // the half and the root of 3/4 of 460: 230 and 398.37
    assert!(rt;
        stand_at(
            &on_circle(alloc, 6)?,
            &[
                (500, 40),
                (898, 270),
                (898, 730),
                (500, 960),
                (102, 730),
                (102, 270)
            ]
        )
    );
    Ok(())
}

/// A bar.
fn bar(x: u32, y: u32, width: u32, height: u32, node: Node) -> Bar {
    Bar {
        x,
        y,
        width,
        height,
        node,
    }
}

#[test]
fn how_deep_nodes_lie(rt: HostRuntime) -> Result<(), Fail> {
    let alloc = rt.alloc();
    let nodes = [
        Node::Split,
        Node::Closed,
        Node::Split,
        Node::Open,
        Node::Closed,
    ];
    let deep = depths(alloc, &nodes)?;
    assert_eq!(rt; deep.as_slice(), [0, 1, 1, 2, 2].as_slice());
    let census = take_census(&nodes);
    assert_eq!(rt; (census.open, census.closed, census.split), (1, 2, 2));
    // the fullest depths have two nodes, which are 120 high
    let strip = bars(alloc, &nodes, &deep)?;
    let want = [
        bar(20, 1160, 40, 60, Node::Split),
        bar(60, 1160, 40, 60, Node::Split),
        bar(60, 1100, 40, 60, Node::Closed),
        bar(100, 1160, 40, 60, Node::Closed),
        bar(100, 1100, 40, 60, Node::Open),
    ];
    assert_eq!(rt; strip.as_slice(), want.as_slice());
    // a deep tree: each bar is one wide, and no depth behind the 960th is drawn
    let chain = [Node::Split; 1000];
    let deep = depths(alloc, &chain)?;
    let strip = bars(alloc, &chain, &deep)?;
    assert_eq!(rt; deep.last(), Some(&999));
    assert_eq!(rt; strip.len(), 960);
    assert_eq!(rt; strip.last(), Some(&bar(979, 1100, 1, 120, Node::Split)));
    assert_eq!(rt; bars(alloc, &[], &[])?.len(), 0);
    Ok(())
}

const HEAD: &str =
    "<svg xmlns='http://www.w3.org/2000/svg' viewBox='0 0 1000 1240'>\n<rect width='1000' height='1240' fill='#ffffff'/>\n<polygon fill='none' stroke='#4477aa' stroke-width='2' points='20,980 20,20 980,20 '/>\n<g stroke='#cc3311' stroke-width='5'>\n";

const CITIES: &str =
    "</g>\n<g fill='#222222'>\n<circle cx='20' cy='980' r='5'><title>1</title></circle>\n<circle cx='20' cy='20' r='5'><title>3</title></circle>\n<circle cx='980' cy='20' r='5'><title>2</title></circle>\n</g>\n<g font-family='sans-serif' font-size='20'>\n<text x='20' y='1020'>3 cities, a tour of length 34</text>\n";

#[test]
fn the_text_of_a_picture(rt: HostRuntime) -> Result<(), AllocError> {
    let alloc = rt.alloc();
    let spots = [
        Spot { x: 20, y: 980 },
        Spot { x: 980, y: 20 },
        Spot { x: 20, y: 20 },
    ];
    let strip = [
        bar(20, 1100, 40, 120, Node::Split),
        bar(60, 1160, 40, 60, Node::Closed),
        bar(60, 1100, 40, 60, Node::Open),
    ];
    let drawing = Drawing {
        layout: Layout::Plane,
        spots: &spots,
        tour: &[0, 2, 1],
        fixed: &[(1, 2)],
        length: 34,
        census: Census {
            open: 1,
            closed: 1,
            split: 1,
        },
        bars: &strip,
    };
    let want = format!(in alloc;
        "{HEAD}<line x1='980' y1='20' x2='20' y2='20'/>\n{CITIES}<text x='20' y='1045'>drawn by their coordinates; fixed pairs are red</text>\n<text x='20' y='1080'>the tree by depth: 1 split (grey), 1 closed (green), 1 open (orange)</text>\n</g>\n<rect x='20' y='1100' width='40' height='120' fill='#bbbbbb'/>\n<rect x='60' y='1160' width='40' height='60' fill='#228833'/>\n<rect x='60' y='1100' width='40' height='60' fill='#ee7733'/>\n</svg>\n"
    )?;
    assert_eq!(rt; draw(alloc, &drawing)?.as_str(), want.as_str());
    let without = Drawing {
        layout: Layout::Circle,
        spots: &spots,
        tour: &[0, 2, 1],
        fixed: &[],
        length: 34,
        census: take_census(&[Node::Closed]),
        bars: &[],
    };
    let want = format!(in alloc;
        "{HEAD}{CITIES}<text x='20' y='1045'>no coordinates: drawn on a circle, by their numbers; fixed pairs are red</text>\n<text x='20' y='1080'>the tree by depth: 0 split (grey), 1 closed (green), 0 open (orange)</text>\n</g>\n</svg>\n"
    )?;
    assert_eq!(rt; draw(alloc, &without)?.as_str(), want.as_str());
    Ok(())
}
