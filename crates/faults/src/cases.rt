//! The runs that are tried: a line of words, and what the desk and the slots hold.

/// What a run begins with.
#[derive(Clone, Copy, Drop)]
pub(crate) struct Case<'a> {
    pub(crate) line: &'a str,
    pub(crate) instance: &'a str,
    pub(crate) proof: &'a [u8],
    /// What slot 0 holds.
    pub(crate) slot: &'a [u8],
    /// Whether lines are printed before all is read.
    pub(crate) prints_as_it_reads: bool,
}

pub(crate) const SQUARE: &str =
    "NAME : square\nTYPE : TSP\nDIMENSION : 4\nEDGE_WEIGHT_TYPE : EUC_2D\nNODE_COORD_SECTION\n1 0 0\n2 0 10\n3 10 10\n4 10 0\nEOF\n";

/// Two triangles of sides 1, and three edges of length 0 between them.
const PRISM: &str =
    "NAME : prism\nTYPE : TSP\nDIMENSION : 6\nEDGE_WEIGHT_TYPE : EXPLICIT\nEDGE_WEIGHT_FORMAT : UPPER_ROW\nEDGE_WEIGHT_SECTION\n1 1 0 100 100\n1 100 0 100\n100 100 0\n1 1\n1\nEOF\n";

const PROOF: &[u8] =
    b"TSPCERT 1\nN 4\nLENGTH 40\nTOUR 1 2 3 4\nCUTS 0\nL 4 0 0\nP 1 5242880\nP 2 5242880\nP 3 5242880\nP 4 5242880\n";

/// No tour is shorter than 0.
const WEAK_PROOF: &[u8] = b"TSPCERT 2\nN 4\nLENGTH 40\nBOUND 0\nTOUR 1 2 3 4\nCUTS 0\nL 0 0 0\n";

/// A body of the square whose root is open, in its slot: 46 bytes behind the gate, the number and the length.
const SLOT: &[u8] = b"\x01\0\0\0\0\0\0\0\0\x2eTSPCERT 1\nN 4\nLENGTH 40\nTOUR 1 2 3 4\nCUTS 0\nO\n";

/// Two grunts ask, one is gone and its lease lost, and both report the same split.
const TAPE: &[u8] =
    b"\0\0\0\x05\x01\0\0\0\x01\0\0\0\x05\x01\0\0\0\x02\0\0\0\x05\x03\0\0\0\x01\0\0\0\x05\x01\0\0\0\x02\0\0\0\x12\x02\0\0\0\0CUTS 0\nE 1 3\n\0\0\0\x12\x02\0\0\0\x01CUTS 0\nE 1 3\n";

const SQUARE_RUN: Case<'static> = Case {
    line: "",
    instance: SQUARE,
    proof: b"",
    slot: b"",
    prints_as_it_reads: false,
};

pub(crate) const SOLVE: Case<'static> = Case {
    line: "tspc solve a b c --grunts 2",
    ..SQUARE_RUN
};

pub(crate) const STOP: Case<'static> = Case {
    line: "tspc solve a b c --budget 0 --grunts 1",
    ..SQUARE_RUN
};

pub(crate) const RESUME: Case<'static> = Case {
    line: "tspc solve a b c --resume --grunts 1",
    slot: SLOT,
    ..SQUARE_RUN
};

pub(crate) const WITHIN: Case<'static> = Case {
    line: "tspc solve a b c --gap 40 --budget 1 --grunts 1",
    ..SQUARE_RUN
};

pub(crate) const VERIFY: Case<'static> = Case {
    line: "tspc verify a b",
    proof: PROOF,
    ..SQUARE_RUN
};

pub(crate) const VERIFY_WITHIN: Case<'static> = Case {
    line: "tspc verify a b",
    proof: WEAK_PROOF,
    ..SQUARE_RUN
};

pub(crate) const TOUR: Case<'static> = Case {
    line: "tspc tour a",
    ..SQUARE_RUN
};

pub(crate) const BENCH: Case<'static> = Case {
    line: "tspc bench 7 5 2047 b",
    ..SQUARE_RUN
};

pub(crate) const REPLAY: Case<'static> = Case {
    line: "tspc replay a t --budget 1 --grunts 2",
    proof: TAPE,
    prints_as_it_reads: true,
    ..SQUARE_RUN
};

pub(crate) const BOUND: Case<'static> = Case {
    line: "tspc bound a b --steps 3",
    instance: PRISM,
    ..SQUARE_RUN
};

pub(crate) const CHECKBOUND: Case<'static> = Case {
    line: "tspc checkbound a b",
    instance: PRISM,
    proof: b"TSPTREE 1\nN 6\nBOUND 3\n",
    ..SQUARE_RUN
};
