//! Points of texts, by hand.

use coordinates::{ReadError, read};
use distx::Point;
use std::alloc::{AllocError, Global};
use std::test::Fail;
use tspinst::Refusal;

/// The points of a text, if it has any.
fn points(alloc: Global, text: &str) -> Result<Option<Vec<Point>>, ReadError> {
    Ok(read(alloc, text.as_bytes())?.points)
}

/// Whether a text has just these points.
fn has(alloc: Global, text: &str, want: &[(i32, i32)]) -> bool {
    let Ok(Some(points)) = points(alloc, text) else {
        return false;
    };
    points.len() == want.len()
        && points
            .iter()
            .zip(want.iter())
            .all(|(point, want)| (point.x(), point.y()) == *want)
}

const SQUARE: [(i32, i32); 4] = [(0, 0), (0, 10), (10, 10), (10, 0)];

#[test]
fn points_are_read_by_their_numbers(rt: HostRuntime) -> Result<(), Fail> {
    let alloc = rt.alloc();
    let heads = ["EUC_2D", "CEIL_2D", "MAN_2D", "MAX_2D", "ATT"];
    for kind in heads {
        let text = format!(in alloc;
            "NAME : s\nTYPE : TSP\nDIMENSION : 4\nEDGE_WEIGHT_TYPE : {kind}\nNODE_COORD_SECTION\n1 0 0\n2 0 10\n3 10 10\n4 10 0\nEOF\n"
        )?;
        assert!(rt; has(alloc, &text, &SQUARE), "{kind}");
    }
    for text in [
        // in another order, on other lines, with other spellings
        "TYPE: TSP\nEDGE_WEIGHT_TYPE :EUC_2D\nDIMENSION 4\nNODE_COORD_SECTION :\n 4 1e1 0 2 -0\n10.0 1\n0 0 3 10 +10",
        // behind other sections
        "TYPE : TSP\nDIMENSION : 4\nEDGE_WEIGHT_TYPE:EUC_2D\nFIXED_EDGES_SECTION\n1 2\n3 4 -1.0\nDISPLAY_DATA_SECTION\n1 7 7 2 8 8\n3 9 9 EOF x y\nNODE_COORD_SECTION 9 9\n1 0 0\n2 0 10\n3 10 10\n4 10 0\n",
        // before other sections
        "TYPE : TSP\nDIMENSION : 4\nCOMMENT : EOF\nEDGE_WEIGHT_TYPE : MAN_2D\nNODE_COORD_SECTION\n1 0 0\n2 0 10\n3 10 10\n4 10 0\nFIXED_EDGES_SECTION\n2 3\n-1\nEOF\n",
    ] {
        assert!(rt; has(alloc, text, &SQUARE), "{text}");
    }
    Ok(())
}

#[test]
fn tables_have_no_points(rt: HostRuntime) -> Result<(), Fail> {
    let alloc = rt.alloc();
    for text in [
        "TYPE : TSP\nDIMENSION : 3\nEDGE_WEIGHT_TYPE : EXPLICIT\nEDGE_WEIGHT_FORMAT : UPPER_ROW\nEDGE_WEIGHT_SECTION\n1 1\n1\nEOF\n",
        "TYPE : TSP\nDIMENSION : 3\nEDGE_WEIGHT_TYPE : EXPLICIT\nEDGE_WEIGHT_FORMAT : UPPER_ROW\nNODE_COORD_SECTION\n1 0 0\n2 0 1\n3 1 1\nEDGE_WEIGHT_SECTION\n1 1\n1\n",
    ] {
        assert!(rt; matches!(points(alloc, text), Ok(None)), "{text}");
    }
    assert!(rt;
        matches!(
            points(alloc, "TYPE : ATSP\n"),
            Err(ReadError::Refused(Refusal::WrongType(1)))
        )
    );
    assert!(rt; matches!(points(alloc, ""), Err(ReadError::Refused(_))));
    Ok(())
}
