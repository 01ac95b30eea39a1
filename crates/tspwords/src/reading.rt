//! Reading the words of a command line.
ghost use Rattle.std.specs.Prelude.{◌≡◌, ◌≤◌, ℕ, map, codes, string_bytes, true, false, [], IfOk, IsErrOf};
ghost use Rattle.clap.specs.Matches.{found_of, has_subcommand};
ghost use Rattle.clap.specs.Walk.{rows_of};
ghost use Rattle.clap.specs.Simple.{app_of, matches_of, subcommand_of, subcommand_rows_of};
ghost use Rattle.clap.specs.Faults.{fault_of, is_simple_and_free};
ghost use Rattle.clap.specs.declared.builder.command.Command.TheViews.{out-Command};
ghost use Rattle.tspwords.specs.Program.{program, verifier, IsTaken, IsVerifierCall, is_on, word_in};
ghost use Rattle.tspwords.specs.Found.{IsSolveOf, IsVerifyOf, IsTourOf, IsBenchOf, IsReplayOf, IsBoundOf, IsCheckboundOf, number_in, budget_in, cities_in, seed_in, gap_in, grunts_in, lose_in, steps_in};
ghost use Rattle.tspwords.specs.Says.{Says, SaysPaths};

use crate::program::{program, verifier};
use crate::words::{
    BenchWords, BoundWords, CheckboundWords, Command, ReplayWords, Solve, TourWords, VerifyWords,
    WordsError,
};
use clap::ArgMatches;
use clap::error::ErrorKind;
use std::alloc::{AllocError, Global};

/// The greatest budget, and the one where none is given.
const MOST_BUDGET: u64 = 65536;

/// The fewest cities of an instance that `bench` makes.
const LEAST_CITIES: u64 = 3;

/// The most cities of an instance that `bench` makes.
const MOST_CITIES: u64 = 2000;

/// The seed where none is given.
const DEFAULT_SEED: u64 = 1;

/// The greatest gap, 2^42.
const MOST_GAP: u64 = 4398046511104;

/// The gap where none is given.
const DEFAULT_GAP: u64 = 0;

/// The fewest grunts.
const LEAST_GRUNTS: u64 = 1;

/// The most grunts.
const MOST_GRUNTS: u64 = 64;

/// How many grunts work where no number is given.
const DEFAULT_GRUNTS: u64 = 4;

/// The most leases whose report is lost.
const MOST_LOSE: u64 = 65536;

/// For how many leases the report is lost where no number is given.
const DEFAULT_LOSE: u64 = 0;

/// The most steps of an ascent.
const MOST_STEPS: u64 = 10000;

/// How many steps are taken where no number is given.
const DEFAULT_STEPS: u64 = 100;

/// Reads the words of the solver's command line, of which the first is the program's name.
///
/// `Usage` comes exactly where the words are not of a command's form; `NoMemory` may come for any words.
pub fn read_command(alloc: Global, words: &[String]) -> Result<Command, WordsError>
    ensures taken { IfOk result (λ command. IsTaken (map string_bytes words.now)) }
    ensures says { IfOk result (λ command. Says (map string_bytes words.now) command) }
    ensures usage { IsErrOf result WordsError.Usage → IsTaken (map string_bytes words.now) → ⊥ }
{
    let matches = matches(alloc, words)?;
    match matches.subcommand() {
        Some(("solve", found)) => Ok(Command::Solve(solve(alloc, found)?)),
        Some(("tour", found)) => Ok(Command::Tour(tour(alloc, found)?)),
        Some(("bench", found)) => Ok(Command::Bench(bench(alloc, found)?)),
        Some(("replay", found)) => Ok(Command::Replay(replay(alloc, found)?)),
        Some(("bound", found)) => Ok(Command::Bound(bound(alloc, found)?)),
        Some(("checkbound", found)) => Ok(Command::Checkbound(checkbound(alloc, found)?)),
        Some((_, found)) => Ok(Command::Verify(verify(alloc, found)?)),
        None => Err(WordsError::Usage),
    }
}

/// Reads the words of the verifier's command line, of which the first is the program's name.
///
/// `Usage` comes exactly where the words are not of its form; `NoMemory` may come for any words.
pub fn read_verify_words(alloc: Global, words: &[String]) -> Result<VerifyWords, WordsError>
    ensures taken { IfOk result (λ v. IsVerifierCall (map string_bytes words.now)) }
    ensures says { IfOk result (SaysPaths (map string_bytes words.now)) }
    ensures usage { IsErrOf result WordsError.Usage → IsVerifierCall (map string_bytes words.now) → ⊥ }
{
    let found = verifier_matches(alloc, words)?;
    Ok(verify(alloc, &found)?)
}

// What the parser of command lines finds in the solver's words.
fn matches<'a>(alloc: Global, words: &'a [String]) -> Result<ArgMatches<'a>, WordsError>
    ensures taken { IfOk result (λ m. IsTaken (map string_bytes words.now)) }
    ensures rows { IfOk result (λ m. subcommand_rows_of m ≡ subcommand_of program (map string_bytes words.now)) }
    ensures named { IfOk result (λ m. has_subcommand m ≡ true) }
    ensures usage { IsErrOf result WordsError.Usage → IsTaken (map string_bytes words.now) → ⊥ }
{
    parsed(program(alloc)?, words)
}

// What it finds in the verifier's words.
fn verifier_matches<'a>(alloc: Global, words: &'a [String]) -> Result<ArgMatches<'a>, WordsError>
    ensures taken { IfOk result (λ m. IsVerifierCall (map string_bytes words.now)) }
    ensures rows { IfOk result (λ m. rows_of (found_of m) ≡ matches_of verifier (map string_bytes words.now)) }
    ensures usage { IsErrOf result WordsError.Usage → IsVerifierCall (map string_bytes words.now) → ⊥ }
{
    parsed(verifier(alloc)?, words)
}

// What the parser finds in words for a command.
fn parsed<'a>(command: clap::Command<'a>, words: &'a [String]) -> Result<ArgMatches<'a>, WordsError>
    requires simple { is_simple_and_free (app_of command) ≡ true }
    requires local { (out-Command command).has_globals ≡ false }
    ensures faults { IfOk result (λ m. fault_of (app_of command.entry) (map string_bytes words.now) ≡ []) }
    ensures rows { IfOk result (λ m. rows_of (found_of m) ≡ matches_of (app_of command.entry) (map string_bytes words.now)) }
    ensures inner { IfOk result (λ m. subcommand_rows_of m ≡ subcommand_of (app_of command.entry) (map string_bytes words.now)) }
    ensures usage { IsErrOf result WordsError.Usage → fault_of (app_of command.entry) (map string_bytes words.now) ≡ [] → ⊥ }
{
    match command.try_get_matches_from(words) {
        Ok(matches) => Ok(matches),
        Err(error) if error.kind() == ErrorKind::OutOfMemory => Err(WordsError::NoMemory),
        Err(_) => Err(WordsError::Usage),
    }
}

// The call of `solve` that was found.
fn solve(alloc: Global, found: &ArgMatches) -> Result<Solve, AllocError>
    ensures { IfOk result (IsSolveOf (rows_of (found_of found.now))) }
{
    Ok(Solve {
        instance: path(alloc, found, "instance")?,
        proof: path(alloc, found, "proof")?,
        restart: path(alloc, found, "restart")?,
        budget: budget(found),
        seed: seed(found),
        resume: resume(found),
        gap: gap(found),
        grunts: grunts(found),
        lose: lose(found),
        twice: switch(found, "twice"),
        late: switch(found, "late"),
    })
}

// The call of `tour` that was found.
fn tour(alloc: Global, found: &ArgMatches) -> Result<TourWords, AllocError>
    ensures { IfOk result (IsTourOf (rows_of (found_of found.now))) }
{
    Ok(TourWords {
        instance: path(alloc, found, "instance")?,
        seed: seed(found),
    })
}

// The call of `bench` that was found.
fn bench(alloc: Global, found: &ArgMatches) -> Result<BenchWords, AllocError>
    ensures { IfOk result (IsBenchOf (rows_of (found_of found.now))) }
{
    let out = path(alloc, found, "out")?;
    let seed = seed(found);
    let cities = cities(found);
    let budget = budget(found);
    Ok(BenchWords {
        seed,
        cities,
        budget,
        out,
    })
}

// The call of `replay` that was found.
fn replay(alloc: Global, found: &ArgMatches) -> Result<ReplayWords, AllocError>
    ensures { IfOk result (IsReplayOf (rows_of (found_of found.now))) }
{
    Ok(ReplayWords {
        instance: path(alloc, found, "instance")?,
        tape: path(alloc, found, "tape")?,
        budget: budget(found),
        grunts: grunts(found),
    })
}

// The call of `bound` that was found.
fn bound(alloc: Global, found: &ArgMatches) -> Result<BoundWords, AllocError>
    ensures { IfOk result (IsBoundOf (rows_of (found_of found.now))) }
{
    Ok(BoundWords {
        instance: path(alloc, found, "instance")?,
        cert: path(alloc, found, "cert")?,
        steps: steps(found),
    })
}

// The call of `checkbound` that was found.
fn checkbound(alloc: Global, found: &ArgMatches) -> Result<CheckboundWords, AllocError>
    ensures { IfOk result (IsCheckboundOf (rows_of (found_of found.now))) }
{
    Ok(CheckboundWords {
        instance: path(alloc, found, "instance")?,
        cert: path(alloc, found, "cert")?,
    })
}

// The paths that were found.
fn verify(alloc: Global, found: &ArgMatches) -> Result<VerifyWords, AllocError>
    ensures { IfOk result (IsVerifyOf (rows_of (found_of found.now))) }
{
    Ok(VerifyWords {
        instance: path(alloc, found, "instance")?,
        proof: path(alloc, found, "proof")?,
    })
}

// The path that was found for an argument.
fn path(alloc: Global, found: &ArgMatches, id: &str) -> Result<String, AllocError>
    ensures { IfOk result (λ path. string_bytes path ≡ word_in id.now (rows_of (found_of found.now))) }
{
    String::from_str(alloc, word(found, id))
}

// The word that was found for an argument.
fn word<'a>(found: &ArgMatches<'a>, id: &str) -> &'a str
    ensures { result.now ≡ word_in id.now (rows_of (found_of found.now)) }
{
    found.get_str(id).unwrap_or("")
}

// The budget that was found.
fn budget(found: &ArgMatches) -> u32
    ensures value { result ≡ budget_in (word_in (codes "budget") (rows_of (found_of found.now))) }
    ensures few { result ≤ 65536 }
{
    let budget = number_in(word(found, "budget"), 0, MOST_BUDGET, MOST_BUDGET);
    budget as u32
}

// The number of cities that was found.
fn cities(found: &ArgMatches) -> u32
    ensures value { result ≡ cities_in (word_in (codes "cities") (rows_of (found_of found.now))) }
    ensures least { 3 ≤ result }
    ensures most { result ≤ 2000 }
{
    let cities = number_in(
        word(found, "cities"),
        LEAST_CITIES,
        MOST_CITIES,
        LEAST_CITIES,
    );
    cities as u32
}

// The seed that was found.
fn seed(found: &ArgMatches) -> u64
    ensures { result ≡ seed_in (word_in (codes "seed") (rows_of (found_of found.now))) }
{
    number_in(word(found, "seed"), 0, u64::MAX, DEFAULT_SEED)
}

// Whether `--resume` was found.
fn resume(found: &ArgMatches) -> bool
    ensures { result ≡ is_on (word_in (codes "resume") (rows_of (found_of found.now))) }
{
    switch(found, "resume")
}

// Whether a switch was found.
fn switch(found: &ArgMatches, id: &str) -> bool
    ensures { result ≡ is_on (word_in id.now (rows_of (found_of found.now))) }
{
    word(found, id) == "true"
}

// The gap that was found.
fn gap(found: &ArgMatches) -> u64
    ensures value { result ≡ gap_in (word_in (codes "gap") (rows_of (found_of found.now))) }
    ensures most { result ≤ 4398046511104 }
{
    number_in(word(found, "gap"), 0, MOST_GAP, DEFAULT_GAP)
}

// The number of grunts that was found.
fn grunts(found: &ArgMatches) -> u32
    ensures value { result ≡ grunts_in (word_in (codes "grunts") (rows_of (found_of found.now))) }
    ensures least { 1 ≤ result }
    ensures most { result ≤ 64 }
{
    let grunts = number_in(
        word(found, "grunts"),
        LEAST_GRUNTS,
        MOST_GRUNTS,
        DEFAULT_GRUNTS,
    );
    grunts as u32
}

// For how many leases the report is lost, as was found.
fn lose(found: &ArgMatches) -> u32
    ensures value { result ≡ lose_in (word_in (codes "lose") (rows_of (found_of found.now))) }
    ensures most { result ≤ 65536 }
{
    let lose = number_in(word(found, "lose"), 0, MOST_LOSE, DEFAULT_LOSE);
    lose as u32
}

// The number of steps that was found.
fn steps(found: &ArgMatches) -> u32
    ensures value { result ≡ steps_in (word_in (codes "steps") (rows_of (found_of found.now))) }
    ensures most { result ≤ 10000 }
{
    let steps = number_in(word(found, "steps"), 0, MOST_STEPS, DEFAULT_STEPS);
    steps as u32
}

// The number that a word says where it is from `least` to `most`, else `default`.
fn number_in(word: &str, least: u64, most: u64, default: u64) -> u64
    requires least { least ≤ default }
    requires most { default ≤ most }
    ensures value { result ≡ number_in least most default word.now }
    ensures least { least ≤ result }
    ensures most { result ≤ most }
{
    let number = word.parse::<u64>().unwrap_or(default);
    if least <= number && number <= most {
        number
    } else {
        default
    }
}
