//! What a reader must believe, and what follows from it: the definitions of `specs/` (distances, tours, cuts,
//! branching paths, closings, bounds, rays and proof trees of the symmetric travelling salesman problem), and the
//! laws over them, each the contract of a function here. There is no program code in this crate.
#![tactic(auto)]

ghost use Rattle.tspdef.specs.Laws.{RootsAreLeast, DistancesGoByRules, CrossingsAreEven, ToursMeetCuts, CutsAreSmall, BoundIsBelow, FittingIsClosing, AcceptedIsBelow, RootsArePaths, ToursObeyRoots, RootCovers, EdgeSplitCovers, CliqueSplitCovers, ClosingCovers, CoveredIsLeast, RaysClose, SameCycleIsSameTour, CanonicalFormExists, CanonicalFormIsOne};

/// The root that a rule takes of a squared distance is the least whole number that is enough for it.
pub fn roots_are_least()
    ensures { RootsAreLeast }
{}

/// A distance is what its rule of TSPLIB 95 says: by the three rules that take a root the least whole number that is enough for
/// the squared distance, by the other two the sum and the greater of the distances along the axes.
pub fn distances_go_by_rules()
    ensures { DistancesGoByRules }
{}

/// Every tour crosses a proper set an even number of times, and at least twice (Dantzig, Fulkerson and Johnson).
pub fn crossings_are_even()
    ensures { CrossingsAreEven }
{}

/// Every tour of three cities or more meets every subtour cut, every comb (Grötschel and Padberg) and every odd cut (Edmonds; Padberg
/// and Rao).
pub fn tours_meet_cuts()
    ensures { ToursMeetCuts }
{}

/// A comb has no more teeth than there are cities, and a pair crosses three sets of a comb at most; of an odd cut of n cities it
/// crosses 2n - 1 at most.
pub fn cuts_are_small()
    ensures { CutsAreSmall }
{}

/// Weak duality: no tour that obeys a path is shorter than the bound of a closing there.
pub fn bound_is_below()
    ensures bound { BoundIsBelow }
    ensures fitting { FittingIsClosing }
{}

/// Where a proof is accepted, no tour is shorter than its bound, whoever wrote the proof.
pub fn accepted_is_below()
    ensures { AcceptedIsBelow }
{}

/// The fixed pairs of an instance are a path, that of the root, whose conditions have no depths; every tour obeys it.
pub fn roots_are_paths()
    ensures paths { RootsArePaths }
    ensures obeyed { ToursObeyRoots }
{}

/// A tree keeps covering every tour as it grows by splits and closings, and in the end makes a length a lower bound.
pub fn trees_cover()
    ensures root { RootCovers }
    ensures edge_split { EdgeSplitCovers }
    ensures clique_split { CliqueSplitCovers }
    ensures closing { ClosingCovers }
    ensures least { CoveredIsLeast }
{}

/// Where every pair is decided the ray closes the node: too few used pairs at a city, too many, several cycles, or a tour.
pub fn rays_close()
    ensures { RaysClose }
{}

/// A tour does not depend on where its list starts nor on its direction, and has exactly one canonical form.
pub fn tours_are_cycles()
    ensures same { SameCycleIsSameTour }
    ensures exists { CanonicalFormExists }
    ensures one { CanonicalFormIsOne }
{}
