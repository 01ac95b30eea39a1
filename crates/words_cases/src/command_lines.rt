use std::alloc::{AllocError, Global};
use std::test::Fail;
use tspwords::{Command, Solve, WordsError, read_command, read_verify_words};

// The words of a line, one blank between two.
fn words_of(alloc: Global, line: &str) -> Result<Vec<String>, AllocError> {
    let mut words = Vec::new(alloc);
    for word in line.split(' ') {
        words.push(String::from_str(alloc, word)?)?;
    }
    Ok(words)
}

// Calls whose contracts a test has no need of.
fn read(alloc: Global, line: &str) -> Result<Command, WordsError> {
    let words = words_of(alloc, line)?;
    read_command(alloc, &words)
}

#[test]
fn words_that_are_taken(rt: HostRuntime) -> Result<(), Fail> {
    for (line, proof, budget, seed) in [
        ("tspc solve a b c", "b", 65536, 1),
        ("tspc solve a b c --budget 200", "b", 200, 1),
        ("tspc solve --budget=0 a b c", "b", 0, 1),
        ("tspc solve a --budget 65536 b c", "b", 65536, 1),
        ("tspc solve a b c --budget +5", "b", 5, 1),
        ("tspc solve a b c --budget 007", "b", 7, 1),
        ("tspc solve -- a -b c", "-b", 65536, 1),
        ("tspc solve a solve c", "solve", 65536, 1),
        ("tspc solve a b c --seed 7 --budget 3", "b", 3, 7),
        ("tspc solve --budget 3 a b c --seed=0", "b", 3, 0),
    ] {
        match read(rt.alloc(), line)? {
            Command::Solve(solve) => {
                assert_eq!(rt; solve.instance.as_str(), "a", "{line}");
                assert_eq!(rt; solve.proof.as_str(), proof, "{line}");
                assert_eq!(rt; solve.restart.as_str(), "c", "{line}");
                assert_eq!(rt; solve.budget, budget, "{line}");
                assert_eq!(rt; solve.seed, seed, "{line}");
            }
            _ => panic!(rt; "{line}"),
        }
    }
    Ok(())
}

#[test]
fn words_that_resume_or_leave_a_gap(rt: HostRuntime) -> Result<(), Fail> {
    for (line, resume, gap, budget, seed) in [
        ("tspc solve a b c", false, 0, 65536, 1),
        ("tspc solve a b c --resume", true, 0, 65536, 1),
        ("tspc solve --resume a b c", true, 0, 65536, 1),
        ("tspc solve a b c --gap 0", false, 0, 65536, 1),
        (
            "tspc solve a b c --gap 4398046511104",
            false,
            4398046511104,
            65536,
            1,
        ),
        ("tspc solve a --gap=+7 b c", false, 7, 65536, 1),
        ("tspc solve a b c --resume --budget 200", true, 0, 200, 1),
        (
            "tspc solve a b c --gap 100 --budget 300",
            false,
            100,
            300,
            1,
        ),
        (
            "tspc solve --gap 5 a --seed 2 b --resume c --budget 3",
            true,
            5,
            3,
            2,
        ),
    ] {
        match read(rt.alloc(), line)? {
            Command::Solve(solve) => {
                assert_eq!(rt; solve.instance.as_str(), "a", "{line}");
                assert_eq!(rt; solve.proof.as_str(), "b", "{line}");
                assert_eq!(rt; solve.restart.as_str(), "c", "{line}");
                assert_eq!(rt; solve.resume, resume, "{line}");
                assert_eq!(rt; solve.gap, gap, "{line}");
                assert_eq!(rt; solve.budget, budget, "{line}");
                assert_eq!(rt; solve.seed, seed, "{line}");
            }
            _ => panic!(rt; "{line}"),
        }
    }
    Ok(())
}

#[test]
fn words_that_set_grunts_and_how_reports_go_astray(rt: HostRuntime) -> Result<(), Fail> {
    for (line, grunts, lose, twice, late) in [
        ("tspc solve a b c", 4, 0, false, false),
        ("tspc solve a b c --grunts 1", 1, 0, false, false),
        ("tspc solve a b c --grunts 64", 64, 0, false, false),
        ("tspc solve --grunts=+5 a b c", 5, 0, false, false),
        ("tspc solve a b c --lose 0", 4, 0, false, false),
        ("tspc solve a b c --lose 65536", 4, 65536, false, false),
        ("tspc solve a --lose 007 b c", 4, 7, false, false),
        ("tspc solve a b c --twice", 4, 0, true, false),
        ("tspc solve a b c --late", 4, 0, false, true),
        ("tspc solve --late a b --twice c", 4, 0, true, true),
        (
            "tspc solve a b c --grunts 3 --lose 8 --twice --late",
            3,
            8,
            true,
            true,
        ),
        (
            "tspc solve a b c --resume --late --lose 2 --grunts 8 --gap 5",
            8,
            2,
            false,
            true,
        ),
    ] {
        match read(rt.alloc(), line)? {
            Command::Solve(solve) => {
                assert_eq!(rt; solve.restart.as_str(), "c", "{line}");
                assert_eq!(rt; solve.budget, 65536, "{line}");
                assert_eq!(rt; solve.seed, 1, "{line}");
                assert_eq!(rt; solve.grunts, grunts, "{line}");
                assert_eq!(rt; solve.lose, lose, "{line}");
                assert_eq!(rt; solve.twice, twice, "{line}");
                assert_eq!(rt; solve.late, late, "{line}");
            }
            _ => panic!(rt; "{line}"),
        }
    }
    Ok(())
}

#[test]
fn words_of_replay_that_are_taken(rt: HostRuntime) -> Result<(), Fail> {
    for (line, instance, tape, budget, grunts) in [
        ("tspc replay a b", "a", "b", 65536, 4),
        ("tspc replay a b --budget 0", "a", "b", 0, 4),
        ("tspc replay a b --budget 65536", "a", "b", 65536, 4),
        ("tspc replay a b --grunts 1", "a", "b", 65536, 1),
        ("tspc replay a b --grunts 64", "a", "b", 65536, 64),
        (
            "tspc replay --grunts 2 replay --budget=3 b",
            "replay",
            "b",
            3,
            2,
        ),
        ("tspc replay -- -a --grunts", "-a", "--grunts", 65536, 4),
    ] {
        match read(rt.alloc(), line)? {
            Command::Replay(replay) => {
                assert_eq!(rt; replay.instance.as_str(), instance, "{line}");
                assert_eq!(rt; replay.tape.as_str(), tape, "{line}");
                assert_eq!(rt; replay.budget, budget, "{line}");
                assert_eq!(rt; replay.grunts, grunts, "{line}");
            }
            _ => panic!(rt; "{line}"),
        }
    }
    Ok(())
}

#[test]
fn words_of_bound_that_are_taken(rt: HostRuntime) -> Result<(), Fail> {
    for (line, instance, cert, steps) in [
        ("tspc bound a b", "a", "b", 100),
        ("tspc bound a b --steps 0", "a", "b", 0),
        ("tspc bound a b --steps 10000", "a", "b", 10000),
        (
            "tspc bound --steps=7 bound checkbound",
            "bound",
            "checkbound",
            7,
        ),
        ("tspc bound -- -a --steps", "-a", "--steps", 100),
    ] {
        match read(rt.alloc(), line)? {
            Command::Bound(bound) => {
                assert_eq!(rt; bound.instance.as_str(), instance, "{line}");
                assert_eq!(rt; bound.cert.as_str(), cert, "{line}");
                assert_eq!(rt; bound.steps, steps, "{line}");
            }
            _ => panic!(rt; "{line}"),
        }
    }
    Ok(())
}

#[test]
fn words_of_checkbound_that_are_taken(rt: HostRuntime) -> Result<(), Fail> {
    for (line, instance, cert) in [
        ("tspc checkbound a b", "a", "b"),
        ("tspc checkbound checkbound bound", "checkbound", "bound"),
        ("tspc checkbound -- -a -b", "-a", "-b"),
    ] {
        match read(rt.alloc(), line)? {
            Command::Checkbound(check) => {
                assert_eq!(rt; check.instance.as_str(), instance, "{line}");
                assert_eq!(rt; check.cert.as_str(), cert, "{line}");
            }
            _ => panic!(rt; "{line}"),
        }
    }
    Ok(())
}

// The name of a switch is a path behind `--`.
#[test]
fn a_path_that_is_called_resume_resumes_nothing(rt: HostRuntime) -> Result<(), Fail> {
    match read(rt.alloc(), "tspc solve --gap 3 -- --resume true --gap")? {
        Command::Solve(solve) => {
            assert_eq!(rt; solve.instance.as_str(), "--resume");
            assert_eq!(rt; solve.proof.as_str(), "true");
            assert_eq!(rt; solve.restart.as_str(), "--gap");
            assert!(rt; !solve.resume);
            assert_eq!(rt; solve.gap, 3);
        }
        _ => panic!(rt; "another command"),
    }
    Ok(())
}

#[test]
fn words_of_tour_that_are_taken(rt: HostRuntime) -> Result<(), Fail> {
    for (line, instance, seed) in [
        ("tspc tour a", "a", 1),
        ("tspc tour a --seed 0", "a", 0),
        ("tspc tour --seed=+5 a", "a", 5),
        ("tspc tour tour --seed 007", "tour", 7),
        (
            "tspc tour a --seed 18446744073709551615",
            "a",
            18446744073709551615,
        ),
        ("tspc tour -- --seed", "--seed", 1),
    ] {
        match read(rt.alloc(), line)? {
            Command::Tour(tour) => {
                assert_eq!(rt; tour.instance.as_str(), instance, "{line}");
                assert_eq!(rt; tour.seed, seed, "{line}");
            }
            _ => panic!(rt; "{line}"),
        }
    }
    Ok(())
}

#[test]
fn words_of_bench_that_are_taken(rt: HostRuntime) -> Result<(), Fail> {
    for (line, seed, cities, budget, out) in [
        ("tspc bench 0 3 0 p", 0, 3, 0, "p"),
        (
            "tspc bench 18446744073709551615 2000 65536 bench",
            18446744073709551615,
            2000,
            65536,
            "bench",
        ),
        ("tspc bench 1 200 5 -- -p", 1, 200, 5, "-p"),
    ] {
        match read(rt.alloc(), line)? {
            Command::Bench(bench) => {
                assert_eq!(rt; bench.seed, seed, "{line}");
                assert_eq!(rt; bench.cities, cities, "{line}");
                assert_eq!(rt; bench.budget, budget, "{line}");
                assert_eq!(rt; bench.out.as_str(), out, "{line}");
            }
            _ => panic!(rt; "{line}"),
        }
    }
    Ok(())
}

// Words that `verify` takes, with and without the name of the command.
#[test]
fn words_of_verify_that_are_taken(rt: HostRuntime) -> Result<(), Fail> {
    for (line, own, instance, proof) in [
        ("tspc verify a b", "tspverify a b", "a", "b"),
        (
            "tspc verify verify solve",
            "tspverify verify solve",
            "verify",
            "solve",
        ),
        ("tspc verify -- -a b", "tspverify -- -a b", "-a", "b"),
        ("tspc verify a -", "tspverify a -", "a", "-"),
    ] {
        match read(rt.alloc(), line)? {
            Command::Verify(verify) => {
                assert_eq!(rt; verify.instance.as_str(), instance, "{line}");
                assert_eq!(rt; verify.proof.as_str(), proof, "{line}");
            }
            _ => panic!(rt; "{line}"),
        }
        let words = words_of(rt.alloc(), own)?;
        let verify = read_verify_words(rt.alloc(), &words)?;
        assert_eq!(rt; verify.instance.as_str(), instance, "{own}");
        assert_eq!(rt; verify.proof.as_str(), proof, "{own}");
    }
    Ok(())
}

#[test]
fn words_of_the_verifier_that_are_not_taken(rt: HostRuntime) -> Result<(), Fail> {
    for line in [
        "tspverify",
        "tspverify a",
        "tspverify a b c",
        "tspverify a b --budget 1",
        "tspverify -a b",
        "tspverify --help",
        "tspverify a b -h",
        "tspverify --version",
    ] {
        let words = words_of(rt.alloc(), line)?;
        assert_eq!(rt;
            read_verify_words(rt.alloc(), &words).err(),
            Some(WordsError::Usage),
            "{line}"
        );
    }
    Ok(())
}

#[test]
fn words_that_are_not_taken(rt: HostRuntime) -> Result<(), Fail> {
    for line in [
        "tspc",
        "tspc solve",
        "tspc solve a",
        "tspc solve a b c d",
        "tspc solve a b c --budget",
        "tspc solve a b c --budget 65537",
        "tspc solve a b c --budget -1",
        "tspc solve a b c --budget 1 --budget 2",
        "tspc solve a b c --budget 18446744073709551616",
        "tspc solve a b c --budge 1",
        "tspc solve a b c -n",
        "tspc bench 1 2 5 p",
        "tspc bench 1 3 5",
        "tspc --help",
        "tspc help",
        "tspc solve --help",
        "tspc solve a b c -h",
        "tspc verify",
        "tspc verify a",
        "tspc verify a b c",
        "tspc verify a b --budget 1",
        "tspc verify --help",
        "tspc verif a b",
        "tspc solve a b c --seed",
        "tspc solve a b c --seed 18446744073709551616",
        "tspc solve a b c --resume=true",
        "tspc solve a b c --resume=",
        "tspc solve a b c --resume true",
        "tspc solve a b c --resume --resume",
        "tspc solve a b c --resum",
        "tspc solve a b --resume",
        "tspc solve a b c --gap",
        "tspc solve a b c --gap=",
        "tspc solve a b c --gap --resume",
        "tspc solve a b c --gap 4398046511105",
        "tspc solve a b c --gap 18446744073709551616",
        "tspc solve a b c --gap -1",
        "tspc solve a b c --gap 1/2",
        "tspc solve a b c --gap 1 --gap 2",
        "tspc verify a b --gap 0",
        "tspc bench 1 3 5 p --resume",
        "tspc tour a --resume",
        "tspc tour a --gap 1",
        "tspc tour",
        "tspc tour a b",
        "tspc tour a --seed -1",
        "tspc tour a --seed 18446744073709551616",
        "tspc tour a --seed 1 --seed 2",
        "tspc tour a --budget 1",
        "tspc tour a --help",
        "tspc solve a b c --grunts",
        "tspc solve a b c --grunts 0",
        "tspc solve a b c --grunts 65",
        "tspc solve a b c --grunts -1",
        "tspc solve a b c --grunts 2 --grunts 3",
        "tspc solve a b c --lose",
        "tspc solve a b c --lose 65537",
        "tspc solve a b c --lose -1",
        "tspc solve a b c --twice 1",
        "tspc solve a b c --twice=true",
        "tspc solve a b c --twice --twice",
        "tspc solve a b c --late=",
        "tspc solve a b c --late --late",
        "tspc solve a b c --steps 1",
        "tspc tour a --grunts 1",
        "tspc bench 1 3 5 p --grunts 1",
        "tspc verify a b --late",
        "tspc replay",
        "tspc replay a",
        "tspc replay a b c",
        "tspc replay a b --budget 65537",
        "tspc replay a b --budget -1",
        "tspc replay a b --grunts 0",
        "tspc replay a b --grunts 65",
        "tspc replay a b --seed 1",
        "tspc replay a b --resume",
        "tspc replay a b --lose 1",
        "tspc replay a b --help",
        "tspc repla a b",
        "tspc bound",
        "tspc bound a",
        "tspc bound a b c",
        "tspc bound a b --steps",
        "tspc bound a b --steps 10001",
        "tspc bound a b --steps -1",
        "tspc bound a b --steps 1 --steps 1",
        "tspc bound a b --budget 1",
        "tspc bound a b -h",
        "tspc checkbound",
        "tspc checkbound a",
        "tspc checkbound a b c",
        "tspc checkbound a b --steps 1",
        "tspc checkbound a b --help",
        "tspc check a b",
    ] {
        assert_eq!(rt;
            read(rt.alloc(), line).err(),
            Some(WordsError::Usage),
            "{line}"
        );
    }
    Ok(())
}
