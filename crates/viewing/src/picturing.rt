//! The picture of what a text says.
ghost use Rattle.std.specs.Prelude.{◌≡◌, ◌<◌, ◌≤◌, length, IfOk, string_bytes};
ghost use Rattle.std.specs.List.{AllByRecursion};
ghost use Rattle.tspdef.specs.Instances.{IsInstance};
ghost use Rattle.picture.specs.Texts.{picture_text};
ghost use Rattle.picture.specs.Canvas.{IsInside};
ghost use Rattle.coordinates.specs.Maps.{IsMapOf};
ghost use Rattle.viewing.specs.Pictures.{IsPicture, IsPlaced, AreMapped};

use crate::saying::Said;
use coordinates::Mapped;
use picture::{Drawing, Layout, Spot, bars, depths, draw, on_circle, on_plane, take_census};
use std::alloc::{AllocError, Global};

/// Where the cities stand.
#[derive(Drop)]
struct Places {
    layout: Layout,
    spots: Vec<Spot>,
}

/// The places of the cities: by their points, or on a circle where there are none.
fn places_of(alloc: Global, mapped: &Mapped) -> Result<Places, AllocError>
    requires { AreMapped mapped.now }
    ensures { IfOk result (λ p. IsPlaced mapped.now.instance p.layout p.spots.items) }
{
    let n = mapped.instance.n();
    match &mapped.points {
        Some(points) => Ok(Places {
            layout: Layout::Plane,
            spots: on_plane(alloc, points)?,
        }),
        None => Ok(Places {
            layout: Layout::Circle,
            spots: on_circle(alloc, n)?,
        }),
    }
}

/// The text of the picture.
pub(crate) fn picture_of(alloc: Global, mapped: &Mapped, said: &Said) -> Result<String, AllocError>
    requires mapped { AreMapped mapped.now }
    requires cities { AllByRecursion (λ c. c < mapped.now.instance.n) said.now.tour }
    requires few { length said.now.nodes.items ≤ 1048576 }
    ensures { IfOk result (λ t. IsPicture mapped.now.instance said.now.length said.now.tour said.now.nodes.items (string_bytes t)) }
{
    let _few = mapped.instance.n();
    let places = places_of(alloc, mapped)?;
    let depths = depths(alloc, &said.nodes)?;
    let bars = bars(alloc, &said.nodes, &depths)?;
    draw(
        alloc,
        &Drawing {
            layout: places.layout,
            spots: &places.spots,
            tour: said.tour.cities(),
            fixed: mapped.instance.fixed(),
            length: said.length,
            census: take_census(&said.nodes),
            bars: &bars,
        },
    )
}
