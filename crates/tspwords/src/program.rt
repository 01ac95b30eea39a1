//! The command lines, as the parser of command lines is given them. At most two arguments are added a function, which keeps
//! the proofs short.
ghost use Rattle.std.specs.Prelude.{◌≡◌, codes, false, [], IfOk};
ghost use Rattle.clap.specs.Walk.{rule_of};
ghost use Rattle.clap.specs.Simple.{app_of, new_app, with_rule, on_top};
ghost use Rattle.clap.specs.declared.builder.command.Command.TheViews.{out-Command};
ghost use Rattle.tspwords.specs.Program.{path_rule, number_rule, numeral_rule, budget_rule, seed_rule, switch_rule, resume_rule, gap_rule, grunts_rule, lose_rule, twice_rule, late_rule, steps_rule, least_cities, most_cities, most_seed, solve_numbers, solve_alone, solve_in_threads, solve_shape, verify_shape, tour_shape, bench_shape, replay_shape, bound_shape, checkbound_shape, proving, making, replaying, program, verifier};

use clap::builder::ValueParser;
use clap::{Arg, ArgAction, Command};
use std::alloc::{AllocError, Global};

// A word that has to be there.
fn path<'a>(alloc: Global, id: &'a str) -> Arg<'a>
    ensures rule { rule_of result ≡ path_rule id.now }
    ensures local { result.global ≡ false }
{
    Arg::new(alloc, id).required(true)
}

// An option of this name that takes a number from `least` to `most`.
fn number<'a>(alloc: Global, id: &'a str, least: u64, most: u64, default: &'a str) -> Arg<'a>
    ensures rule { rule_of result ≡ number_rule id.now least most default.now }
    ensures local { result.global ≡ false }
{
    Arg::new(alloc, id)
        .long(id)
        .value_parser(ValueParser::Unsigned(least, most))
        .default_value(default)
}

// A number from `least` to `most` that has to be there.
fn numeral<'a>(alloc: Global, id: &'a str, least: u64, most: u64) -> Arg<'a>
    ensures rule { rule_of result ≡ numeral_rule id.now least most }
    ensures local { result.global ≡ false }
{
    path(alloc, id).value_parser(ValueParser::Unsigned(least, most))
}

// A switch of this name.
fn switch<'a>(alloc: Global, id: &'a str) -> Arg<'a>
    ensures rule { rule_of result ≡ switch_rule id.now }
    ensures local { result.global ≡ false }
{
    Arg::new(alloc, id).long(id).action(ArgAction::SetTrue)
}

// `--budget N`
fn budget<'a>(alloc: Global) -> Arg<'a>
    ensures rule { rule_of result ≡ budget_rule }
    ensures local { result.global ≡ false }
{
    number(alloc, "budget", 0, 65536, "65536")
}

// `--seed S`
fn seed<'a>(alloc: Global) -> Arg<'a>
    ensures rule { rule_of result ≡ seed_rule }
    ensures local { result.global ≡ false }
{
    number(alloc, "seed", 0, u64::MAX, "1")
}

// `--resume`
fn resume<'a>(alloc: Global) -> Arg<'a>
    ensures rule { rule_of result ≡ resume_rule }
    ensures local { result.global ≡ false }
{
    switch(alloc, "resume")
}

// `--gap G`
fn gap<'a>(alloc: Global) -> Arg<'a>
    ensures rule { rule_of result ≡ gap_rule }
    ensures local { result.global ≡ false }
{
    number(alloc, "gap", 0, 4398046511104, "0")
}

// `--grunts K`
fn grunts<'a>(alloc: Global) -> Arg<'a>
    ensures rule { rule_of result ≡ grunts_rule }
    ensures local { result.global ≡ false }
{
    number(alloc, "grunts", 1, 64, "4")
}

// `--lose N`
fn lose<'a>(alloc: Global) -> Arg<'a>
    ensures rule { rule_of result ≡ lose_rule }
    ensures local { result.global ≡ false }
{
    number(alloc, "lose", 0, 65536, "0")
}

// `--twice`
fn twice<'a>(alloc: Global) -> Arg<'a>
    ensures rule { rule_of result ≡ twice_rule }
    ensures local { result.global ≡ false }
{
    switch(alloc, "twice")
}

// `--late`
fn late<'a>(alloc: Global) -> Arg<'a>
    ensures rule { rule_of result ≡ late_rule }
    ensures local { result.global ≡ false }
{
    switch(alloc, "late")
}

// `--steps K`
fn steps<'a>(alloc: Global) -> Arg<'a>
    ensures rule { rule_of result ≡ steps_rule }
    ensures local { result.global ≡ false }
{
    number(alloc, "steps", 0, 10000, "100")
}

// `solve INSTANCE PROOF`, the front of `solve`.
fn solve_front<'a>(alloc: Global) -> Result<Command<'a>, AllocError>
    ensures app { IfOk result (λ c. app_of c ≡ with_rule (with_rule (new_app (codes "solve")) (path_rule (codes "instance"))) (path_rule (codes "proof"))) }
    ensures local { IfOk result (λ c. (out-Command c).has_globals ≡ false) }
{
    Command::new(alloc, "solve")
        .arg(path(alloc, "instance"))?
        .arg(path(alloc, "proof"))
}

// `solve INSTANCE PROOF RESTART`
fn solve_paths<'a>(alloc: Global) -> Result<Command<'a>, AllocError>
    ensures app { IfOk result (λ c. app_of c ≡ with_rule (with_rule (with_rule (new_app (codes "solve")) (path_rule (codes "instance"))) (path_rule (codes "proof"))) (path_rule (codes "restart"))) }
    ensures local { IfOk result (λ c. (out-Command c).has_globals ≡ false) }
{
    solve_front(alloc)?.arg(path(alloc, "restart"))
}

// `solve INSTANCE PROOF RESTART [--budget N] [--seed S]`
fn solve_numbers<'a>(alloc: Global) -> Result<Command<'a>, AllocError>
    ensures app { IfOk result (λ c. app_of c ≡ record { top = solve_numbers; subs = [] }) }
    ensures local { IfOk result (λ c. (out-Command c).has_globals ≡ false) }
{
    solve_paths(alloc)?.arg(budget(alloc))?.arg(seed(alloc))
}

// `solve INSTANCE PROOF RESTART [--budget N] [--seed S] [--resume] [--gap G]`
fn solve_alone<'a>(alloc: Global) -> Result<Command<'a>, AllocError>
    ensures app { IfOk result (λ c. app_of c ≡ record { top = solve_alone; subs = [] }) }
    ensures local { IfOk result (λ c. (out-Command c).has_globals ≡ false) }
{
    solve_numbers(alloc)?.arg(resume(alloc))?.arg(gap(alloc))
}

// `solve INSTANCE PROOF RESTART [--budget N] [--seed S] [--resume] [--gap G] [--grunts K] [--lose N]`
fn solve_in_threads<'a>(alloc: Global) -> Result<Command<'a>, AllocError>
    ensures app { IfOk result (λ c. app_of c ≡ record { top = solve_in_threads; subs = [] }) }
    ensures local { IfOk result (λ c. (out-Command c).has_globals ≡ false) }
{
    solve_alone(alloc)?.arg(grunts(alloc))?.arg(lose(alloc))
}

// `solve INSTANCE PROOF RESTART [--budget N] [--seed S] [--resume] [--gap G] [--grunts K] [--lose N] [--twice] [--late]`
fn solve<'a>(alloc: Global) -> Result<Command<'a>, AllocError>
    ensures app { IfOk result (λ c. app_of c ≡ record { top = solve_shape; subs = [] }) }
    ensures local { IfOk result (λ c. (out-Command c).has_globals ≡ false) }
{
    solve_in_threads(alloc)?.arg(twice(alloc))?.arg(late(alloc))
}

// `tour INSTANCE [--seed S]`
fn tour<'a>(alloc: Global) -> Result<Command<'a>, AllocError>
    ensures app { IfOk result (λ c. app_of c ≡ record { top = tour_shape; subs = [] }) }
    ensures local { IfOk result (λ c. (out-Command c).has_globals ≡ false) }
{
    Command::new(alloc, "tour")
        .arg(path(alloc, "instance"))?
        .arg(seed(alloc))
}

// `bench SEED N`, the front of `bench`.
fn bench_front<'a>(alloc: Global) -> Result<Command<'a>, AllocError>
    ensures app { IfOk result (λ c. app_of c ≡ with_rule (with_rule (new_app (codes "bench")) (numeral_rule (codes "seed") 0 most_seed)) (numeral_rule (codes "cities") least_cities most_cities)) }
    ensures local { IfOk result (λ c. (out-Command c).has_globals ≡ false) }
{
    Command::new(alloc, "bench")
        .arg(numeral(alloc, "seed", 0, u64::MAX))?
        .arg(numeral(alloc, "cities", 3, 2000))
}

// `bench SEED N BUDGET OUT`
fn bench<'a>(alloc: Global) -> Result<Command<'a>, AllocError>
    ensures app { IfOk result (λ c. app_of c ≡ record { top = bench_shape; subs = [] }) }
    ensures local { IfOk result (λ c. (out-Command c).has_globals ≡ false) }
{
    bench_front(alloc)?
        .arg(numeral(alloc, "budget", 0, 65536))?
        .arg(path(alloc, "out"))
}

// `verify INSTANCE PROOF`
fn verify<'a>(alloc: Global) -> Result<Command<'a>, AllocError>
    ensures app { IfOk result (λ c. app_of c ≡ record { top = verify_shape; subs = [] }) }
    ensures local { IfOk result (λ c. (out-Command c).has_globals ≡ false) }
{
    Command::new(alloc, "verify")
        .arg(path(alloc, "instance"))?
        .arg(path(alloc, "proof"))
}

// `replay INSTANCE TAPE`, the front of `replay`.
fn replay_front<'a>(alloc: Global) -> Result<Command<'a>, AllocError>
    ensures app { IfOk result (λ c. app_of c ≡ with_rule (with_rule (new_app (codes "replay")) (path_rule (codes "instance"))) (path_rule (codes "tape"))) }
    ensures local { IfOk result (λ c. (out-Command c).has_globals ≡ false) }
{
    Command::new(alloc, "replay")
        .arg(path(alloc, "instance"))?
        .arg(path(alloc, "tape"))
}

// `replay INSTANCE TAPE [--budget N] [--grunts K]`
fn replay<'a>(alloc: Global) -> Result<Command<'a>, AllocError>
    ensures app { IfOk result (λ c. app_of c ≡ record { top = replay_shape; subs = [] }) }
    ensures local { IfOk result (λ c. (out-Command c).has_globals ≡ false) }
{
    replay_front(alloc)?.arg(budget(alloc))?.arg(grunts(alloc))
}

// A command on an instance and a certificate.
fn certificate<'a>(alloc: Global, name: &'a str) -> Result<Command<'a>, AllocError>
    ensures app { IfOk result (λ c. app_of c ≡ with_rule (with_rule (new_app name.now) (path_rule (codes "instance"))) (path_rule (codes "cert"))) }
    ensures local { IfOk result (λ c. (out-Command c).has_globals ≡ false) }
{
    Command::new(alloc, name)
        .arg(path(alloc, "instance"))?
        .arg(path(alloc, "cert"))
}

// `bound INSTANCE CERT [--steps K]`
fn bound<'a>(alloc: Global) -> Result<Command<'a>, AllocError>
    ensures app { IfOk result (λ c. app_of c ≡ record { top = bound_shape; subs = [] }) }
    ensures local { IfOk result (λ c. (out-Command c).has_globals ≡ false) }
{
    certificate(alloc, "bound")?.arg(steps(alloc))
}

// `checkbound INSTANCE CERT`
fn checkbound<'a>(alloc: Global) -> Result<Command<'a>, AllocError>
    ensures app { IfOk result (λ c. app_of c ≡ record { top = checkbound_shape; subs = [] }) }
    ensures local { IfOk result (λ c. (out-Command c).has_globals ≡ false) }
{
    certificate(alloc, "checkbound")
}

// The program and the commands that have to do with proofs.
fn proving<'a>(alloc: Global) -> Result<Command<'a>, AllocError>
    ensures app { IfOk result (λ c. app_of c ≡ proving) }
    ensures local { IfOk result (λ c. (out-Command c).has_globals ≡ false) }
{
    let top = Command::new(alloc, "tspc")
        .subcommand_required(true)
        .disable_help_subcommand(true);
    top.subcommand(solve(alloc)?)?.subcommand(verify(alloc)?)
}

// With these, and the commands that make a tour or an instance.
fn making<'a>(alloc: Global) -> Result<Command<'a>, AllocError>
    ensures app { IfOk result (λ c. app_of c ≡ making) }
    ensures local { IfOk result (λ c. (out-Command c).has_globals ≡ false) }
{
    proving(alloc)?
        .subcommand(tour(alloc)?)?
        .subcommand(bench(alloc)?)
}

// With these, and `replay`.
fn replaying<'a>(alloc: Global) -> Result<Command<'a>, AllocError>
    ensures app { IfOk result (λ c. app_of c ≡ replaying) }
    ensures local { IfOk result (λ c. (out-Command c).has_globals ≡ false) }
{
    making(alloc)?.subcommand(replay(alloc)?)
}

/// The program and its commands.
pub(crate) fn program<'a>(alloc: Global) -> Result<Command<'a>, AllocError>
    ensures app { IfOk result (λ c. app_of c ≡ program) }
    ensures local { IfOk result (λ c. (out-Command c).has_globals ≡ false) }
{
    replaying(alloc)?
        .subcommand(bound(alloc)?)?
        .subcommand(checkbound(alloc)?)
}

/// The verifier.
pub(crate) fn verifier<'a>(alloc: Global) -> Result<Command<'a>, AllocError>
    ensures app { IfOk result (λ c. app_of c ≡ verifier) }
    ensures local { IfOk result (λ c. (out-Command c).has_globals ≡ false) }
{
    Command::new(alloc, "tspverify")
        .arg(path(alloc, "instance"))?
        .arg(path(alloc, "proof"))
}
