//! What each refusal means, and what to do: the one table, which `bench/words.py` reads and compares with the man pages and
//! docs/FORMATS.md.

use crate::rows::{Row, StatusRow, Tables};

/// The tables of all programs.
pub const TABLES: Tables<'static> = Tables {
    refusals: REFUSALS,
    certificates: CERTIFICATES,
    frames: FRAMES,
    statuses: STATUSES,
};

/// Lines that name a line of a file, and the usages. Of two rows that fit a line the first counts.
const REFUSALS: &[Row] = &[
    Row {
        front: "USAGE tspc solve/verify/tour/bench/replay/bound/checkbound",
        back: "",
        words: "the words are of no command's form; see man tspc for what each command takes",
    },
    Row {
        front: "USAGE tspverify INSTANCE PROOF",
        back: "",
        words: "there are not just two words; give the file of the instance, and then that of the proof",
    },
    Row {
        front: "USAGE tspview INSTANCE TEXT OUT",
        back: "",
        words: "there are not just three words, or one begins with a dash; give the file of the instance, that of a proof or restart body, and that of the picture",
    },
    Row {
        front: "INSTANCE 1 0",
        back: "",
        words: "the file has more than 2^26 bytes; split the problem, or leave out comments and blanks",
    },
    Row {
        front: "INSTANCE 2 ",
        back: "",
        words: "the line begins with no keyword of the table; correct its spelling (upper case), or take the line out; NAME and COMMENT take any text",
    },
    Row {
        front: "INSTANCE 3 ",
        back: "",
        words: "a keyword stands a second time; take one of the two lines out; only COMMENT may be repeated",
    },
    Row {
        front: "INSTANCE 4 ",
        back: "",
        words: "TYPE is not TSP; write TYPE : TSP; ATSP, CVRP and others are not solved",
    },
    Row {
        front: "INSTANCE 5 ",
        back: "",
        words: "EDGE_WEIGHT_TYPE is not one that is taken; EUC_2D, CEIL_2D, ATT, MAN_2D, MAX_2D and EXPLICIT are; for GEO give the distances as a table, EXPLICIT",
    },
    Row {
        front: "INSTANCE 6 ",
        back: "",
        words: "EDGE_WEIGHT_FORMAT is not one that is taken, or is FUNCTION before a table; FULL_MATRIX, UPPER_ROW and the others of the table of keywords",
    },
    Row {
        front: "INSTANCE 7 ",
        back: "",
        words: "DIMENSION is not a number of digits from 3 to 2000; write the number of cities",
    },
    Row {
        front: "INSTANCE 8 ",
        back: "",
        words: "a section stands before a line that it needs, or weights without EXPLICIT; DIMENSION and EDGE_WEIGHT_TYPE stand above the sections, EDGE_WEIGHT_FORMAT above the table",
    },
    Row {
        front: "INSTANCE 9 ",
        back: " 1",
        words: "a word on the line is not a number; correct it; a section may also have too few numbers, so that the next keyword is met",
    },
    Row {
        front: "INSTANCE 9 ",
        back: " 2",
        words: "a number is not whole; coordinates and weights must be whole: multiply all by 10, 100 or 1000 and round",
    },
    Row {
        front: "INSTANCE 9 ",
        back: " 3",
        words: "a number is too large, or a weight is negative; coordinates are of size at most 2^24 = 16777216, weights 0 to 2^30 - 1 = 1073741823: scale all of them",
    },
    Row {
        front: "INSTANCE 10 ",
        back: "",
        words: "a node number is not one of 1 to DIMENSION, or a node stands twice; each node once; a list of fixed edges ends with a -1 in the place of a first node",
    },
    Row {
        front: "INSTANCE 11 ",
        back: " ",
        words: "the distances from I to J and from J to I differ; the table must be symmetric: correct one of the two, or model it otherwise",
    },
    Row {
        front: "INSTANCE 12 0",
        back: "",
        words: "the file ends within a section; some numbers are missing: compare DIMENSION with the section",
    },
    Row {
        front: "INSTANCE 13 0 1",
        back: "",
        words: "there is no TYPE; add TYPE : TSP",
    },
    Row {
        front: "INSTANCE 13 0 2",
        back: "",
        words: "there is no DIMENSION; add it",
    },
    Row {
        front: "INSTANCE 13 0 3",
        back: "",
        words: "there is no EDGE_WEIGHT_TYPE; add it",
    },
    Row {
        front: "INSTANCE 13 0 4",
        back: "",
        words: "there is no section of coordinates or weights; EXPLICIT needs EDGE_WEIGHT_SECTION, the others NODE_COORD_SECTION",
    },
    Row {
        front: "INSTANCE 14 ",
        back: " 1",
        words: "a fixed edge joins a city to itself; take it out",
    },
    Row {
        front: "INSTANCE 14 ",
        back: " 2",
        words: "a fixed edge is the third one at a city; no tour has three edges at a city: take one out",
    },
    Row {
        front: "INSTANCE 14 ",
        back: " 3",
        words: "a fixed edge closes a round trip that leaves out a city; take one edge of the round trip out",
    },
    Row {
        front: "REFUSED 1 ",
        back: "",
        words: "the line is not of the form at its place, or the text ends before the tree does; the file is no proof, or was cut off: write it anew",
    },
    Row {
        front: "REFUSED 2 2",
        back: "",
        words: "the proof is of another number of cities; it belongs to another instance",
    },
    Row {
        front: "REFUSED 3 ",
        back: "",
        words: "the tour is not one of the instance in the form that is asked for, or leaves out a fixed edge; it belongs to another instance, or was changed",
    },
    Row {
        front: "REFUSED 4 ",
        back: "",
        words: "LENGTH is not the length of the tour; it belongs to another instance, or was changed",
    },
    Row {
        front: "REFUSED 5 ",
        back: "",
        words: "a set or cut is none; the proof was not written by this solver, or was changed",
    },
    Row {
        front: "REFUSED 6 ",
        back: "",
        words: "a split of a pair that is decided already; the proof was not written by this solver, or was changed",
    },
    Row {
        front: "REFUSED 7 ",
        back: "",
        words: "a leaf's bound is too weak: the proof does not show what it says; it was not written by this solver, or was changed; or the instance has changed since",
    },
    Row {
        front: "REFUSED 8 ",
        back: "",
        words: "a leaf is open: the search was not at its end; this is a restart body: go on with --resume",
    },
    Row {
        front: "REFUSED 9 ",
        back: "",
        words: "bytes follow the proof; take them out",
    },
    Row {
        front: "REFUSED 10 ",
        back: "",
        words: "the text is longer than 2^60 bytes",
    },
    Row {
        front: "REFUSED 11 4",
        back: "",
        words: "the bound is not below the length; the proof was changed",
    },
    Row {
        front: "REFUSED 12 0",
        back: "",
        words: "the text has more than 1,048,576 nodes, which are not drawn; tspverify says whether it is a proof",
    },
    Row {
        front: "RESTART 1 0",
        back: "",
        words: "there is no whole body in RESTART.0 and RESTART.1; check the path; without --resume the search begins anew",
    },
    Row {
        front: "RESTART 1 ",
        back: "",
        words: "the body is not of the form, or not of this instance; check that the instance is the one of the first run",
    },
    Row {
        front: "RESTART 2 2",
        back: "",
        words: "the body is of another number of cities; it belongs to another instance",
    },
    Row {
        front: "RESTART 3 ",
        back: "",
        words: "LENGTH is not the length of the tour; the instance has changed since: begin anew",
    },
    Row {
        front: "RESTART 4 ",
        back: "",
        words: "a closed leaf's bound is too weak; the instance has changed since: begin anew",
    },
    Row {
        front: "RESTART 5 0",
        back: "",
        words: "the body's nodes and twice the budget exceed 1,048,576; give a smaller --budget",
    },
];

/// Lines that refuse the certificate of a bound.
const CERTIFICATES: &[Row] = &[
    Row {
        front: "REFUSED 1 ",
        back: "",
        words: "the line is not of the form at its place, or bytes follow the certificate; the file is no certificate, or was changed: write it anew",
    },
    Row {
        front: "REFUSED 2 2",
        back: "",
        words: "the certificate is of another number of cities; it belongs to another instance",
    },
    Row {
        front: "REFUSED 7 3",
        back: "",
        words: "the duals do not prove the bound; the certificate was changed, or the instance has changed since",
    },
];

/// Lines that name a frame of a tape.
const FRAMES: &[Row] = &[
    Row {
        front: "FRAME 1 ",
        back: "",
        words: "the length is 0 or above 2^24; each frame begins with its length in four bytes, the highest first",
    },
    Row {
        front: "FRAME 2 ",
        back: "",
        words: "the first byte is none of 1 to 5, or the size is not that of the event; see the table of events in docs/FORMATS.md",
    },
    Row {
        front: "FRAME 3 ",
        back: "",
        words: "the text is not of the form, or lists a cut that is none; a report has lines of a proof, and an offer a TOUR line",
    },
    Row {
        front: "FRAME 4 ",
        back: "",
        words: "the tape ends inside the frame; it was cut off, or the length is wrong",
    },
    Row {
        front: "FRAME 5 ",
        back: "",
        words: "the grunt is none of those of the search; correct its number, or give more of them with --grunts",
    },
    Row {
        front: "FRAME 6 ",
        back: "",
        words: "the tape is longer than 2^60 bytes",
    },
];

/// Exit statuses at which nothing, or only a front of a text, was printed.
const STATUSES: &[StatusRow] = &[
    StatusRow {
        status: 6,
        words: "a file could not be opened or read; see that each path is right, and that you may read it",
    },
    StatusRow {
        status: 7,
        words: "a file or the answer could not be written; see that you may write there, and that the disk is not full",
    },
    StatusRow {
        status: 8,
        words: "the restart files could not be read, written or synced; see that the path is right; a body that they held is not lost",
    },
    StatusRow {
        status: 9,
        words: "there is not enough memory; free some, or take a smaller instance",
    },
];
