//! Rounds of solving a node's relaxation and adding what its answer lacks.
ghost use Rattle.std.specs.Prelude.{◌≡◌, ℕ, List, ◌+◌, ◌^◌, ◌≤◌, ◌<ℤ◌, true, false, None, length, All, IfOk, IfSome, OnOk};
ghost use Rattle.tspdef.specs.Instances.{Instance as TheInstance};
ghost use Rattle.tspdef.specs.Paths.{Condition};
ghost use Rattle.tspdef.specs.Bounds as bounds;
ghost use Rattle.tspdef.specs.Cuts.{IsCut};
ghost use Rattle.nodelp.specs.Node.{IsNodeLp, IsClean, HasSolved, IsMissed, IsPriced};
ghost use Rattle.nodelp.specs.Duals.{newest_duals};
ghost use Rattle.simplex.specs.Lp.{is_counted};
ghost use Rattle.worker.specs.Works.{cliques};
ghost use Rattle.sepblos.specs.Violated.{IsWorth};
ghost use Rattle.grunt.specs.Missed.{MissesNoCut};
ghost use Rattle.grunt.specs.Whys.{MissesNone, LacksNothing, LacksNothingOdd};
ghost use Rattle.grunt.specs.Odds.{AnswersOdd};
ghost use Rattle.grunt.specs.Rounds.{IsBegun, IsLook, HasGrown, HasEnded};

use crate::ages::Ages;
use crate::boxes::{Turn, share_all};
use crate::efforts::solves_of;
use crate::missed::missed_cuts;
use crate::odd::{Asked, OddSearch};
use crate::proposals::handles_of;
use branchx::{Cond, Path};
use cutform::Cut;
use cutpool::CutBox;
use cyc::Frac;
use nodelp::NodeLp;
use pricer::{Closing, bound, needed};
use simplex::{Lp, LpAnswer};
use std::alloc::{AllocError, Global};
use tspdef::bound_is_below;
use tspinst::Instance;
use worker::{Effort, OddAnswer};

/// How many rounds a node has.
pub(crate) const ROUNDS: u32 = 200;

/// One length, in units.
pub(crate) const SCALE: i128 = 1 << 20;

/// How often cuts are taken off at most.
const PURGES: u32 = 20;

/// How many cuts are added at once at most.
const MANY: usize = 4096;

/// What a solve shows: the closing of its duals, and its bound.
#[derive(Drop)]
pub(crate) struct Look {
    pub(crate) closing: Closing,
    pub(crate) bound: i128,
}

/// Solves a node's relaxation round after round, until the duals close the node for tours of the length that is wanted, nothing is
/// missing, or the rounds are used up; what the last solve shows.
///
/// Each round but the last adds a row that the values missed or a column of negative reduced cost, so that the next solve
/// counts as a round of the program too. Where many cuts are slack for long, a program without them takes the node's place, from
/// the same basis on: its rounds begin anew, and what is said of rounds in the end is said of that program, from which nothing is taken off any more.
/// What the solves of such former programs cost is added to `spent`.
#[tactic(auto, using(crate::proofs::RowLemmas::begun_ready, crate::proofs::RowLemmas::grown_ready))]
pub(crate) fn rounds<B: CutBox>(
    alloc: Global,
    instance: &Instance,
    shared: &mut B,
    path: &Path,
    wanted: u64,
    node: &mut NodeLp,
    spent: &mut Effort,
) -> Result<(Look, OddAnswer), AllocError>
    requires cities { path.now.n ≡ instance.now.n }
    requires few { length path.now.conditions ≤ 2 ^ 22 }
    requires few_cliques { cliques path.now.conditions ≤ 2 ^ 21 }
    requires begun { IsBegun instance.now path.now.conditions node.old }
    ensures look { IfOk result (λ r. IsLook instance.now path.now.conditions node.new r.0) }
    ensures ended { IfOk result (λ r. HasEnded instance.now path.now.conditions wanted node.new r.0 r.1) }
{
    let mut ages = Ages::new(alloc);
    let mut purges = PURGES;
    let mut odd = OddSearch::new();
    let mut turn = Turn::first();
    while node.lp().rounds() < ROUNDS - 1 {
        solve(alloc, node)?;
        if let Some(closing) = closing_look(alloc, instance, path, wanted, node)? {
            return Ok((closing, OddAnswer::NotAsked));
        }
        let solves = solves_of(node);
        if purge(alloc, instance, path, node, &mut ages, purges)? {
            *spent = spent.and(solves);
            purges -= 1;
            continue;
        }
        if price_after_purge(alloc, instance, path, node, purges)? {
            continue;
        }
        if let Some(answer) = grow(alloc, instance, shared, path, node, &mut odd, &mut turn)? {
            return Ok((newest_look(alloc, instance, path, node)?, answer));
        }
    }
    solve(alloc, node)?;
    Ok((
        newest_look(alloc, instance, path, node)?,
        OddAnswer::NotAsked,
    ))
}

/// Counts for how long each cut has been slack, and takes the old ones off where they are many and purges are left: whether it did.
fn purge(
    alloc: Global,
    instance: &Instance,
    path: &Path,
    node: &mut NodeLp,
    ages: &mut Ages,
    left: u32,
) -> Result<bool, AllocError>
    requires cities { path.now.n ≡ instance.now.n }
    requires few_cliques { cliques path.now.conditions ≤ 2 ^ 21 }
    ensures begun { IfOk result (λ gone. gone ≡ true → IsBegun instance.now path.now.conditions node.new) }
    ensures same { IfOk result (λ gone. gone ≡ false → node.new ≡ node.old) }
    ensures left { IfOk result (λ gone. gone ≡ true → 1 ≤ left) }
{
    if left == 0 {
        return Ok(false);
    }
    ages.count(node.lp())?;
    match ages.kept(alloc, node)? {
        Some(kept) => {
            *node = node.without(alloc, instance, path, &kept)?;
            *ages = Ages::new(alloc);
            Ok(true)
        }
        None => Ok(false),
    }
}

/// Solves a node's relaxation.
fn solve(alloc: Global, node: &mut NodeLp) -> Result<(), AllocError>
    requires new { is_counted node.old.program ≡ true }
    requires rounds { node.old.program.rounds ≤ 200 }
    ensures kept { OnOk result ((i : TheInstance) (path : List Condition) → IsNodeLp i path node.old → IsNodeLp i path node.new) }
    ensures clean { OnOk result (IsClean node.new.program) }
    ensures rounds { OnOk result (node.new.program.rounds ≡ node.old.program.rounds + 1) }
    ensures rows { OnOk result (node.new.program.rows ≡ node.old.program.rows) }
{
    node.solve(alloc)
}

/// What the newest duals are worth, where that closes the node for tours of a length. The sum over all pairs is taken only where the
/// cost of the program comes within one length of what is needed, as it cannot be far above that cost.
fn closing_look(
    alloc: Global,
    instance: &Instance,
    path: &Path,
    wanted: u64,
    node: &NodeLp,
) -> Result<Option<Look>, AllocError>
    requires cities { path.now.n ≡ instance.now.n }
    requires few { length path.now.conditions ≤ 2 ^ 22 }
    requires node { IsNodeLp instance.now path.now.conditions node.now }
    requires clean { IsClean node.now.program }
    ensures look { IfOk result (λ l. IfSome l (IsLook instance.now path.now.conditions node.now)) }
    ensures closes { IfOk result (λ l. IfSome l (λ k. bounds.needed wanted <ℤ k.bound)) }
{
    if cost(instance, node.lp()).saturating_add(SCALE) < needed(wanted) {
        return Ok(None);
    }
    let newest = newest_look(alloc, instance, path, node)?;
    if newest.bound > needed(wanted) {
        return Ok(Some(newest));
    }
    Ok(None)
}

/// What the newest values cost, in units; as much as can be where they are rough.
fn cost(instance: &Instance, lp: &Lp) -> i128
    requires cities { lp.now.n ≡ instance.now.n }
    requires clean { IsClean lp.now }
{
    match lp.last() {
        Some(LpAnswer::Solved { x, .. }) => cost_of(instance, x),
        _ => i128::MAX,
    }
}

/// What values on pairs cost, in units.
fn cost_of(instance: &Instance, x: &Frac) -> i128
    requires { x.now.n ≡ instance.now.n }
{
    let mut cost: i128 = 0;
    for entry in x.entries() {
        let pair = u64::from(entry.x) * u64::from(instance.d(entry.u, entry.v));
        cost = cost.saturating_add(i128::from(pair));
    }
    cost
}

/// What a node's newest duals are worth.
fn newest_look(
    alloc: Global,
    instance: &Instance,
    path: &Path,
    node: &NodeLp,
) -> Result<Look, AllocError>
    requires cities { path.now.n ≡ instance.now.n }
    requires few { length path.now.conditions ≤ 2 ^ 22 }
    requires node { IsNodeLp instance.now path.now.conditions node.now }
    requires clean { IsClean node.now.program }
    ensures { IfOk result (IsLook instance.now path.now.conditions node.now) }
{
    bound_is_below();
    let closing = node.closing(alloc, path)?;
    let bound = bound(instance, path, &closing);
    Ok(Look { closing, bound })
}

/// Adds undecided pairs of negative reduced cost in the first round after a purge, and says whether there were any. The duals are then those of a program
/// that had many rounds, so pairs come in before more cuts are found for values that lack them.
fn price_after_purge(
    alloc: Global,
    instance: &Instance,
    path: &Path,
    node: &mut NodeLp,
    left: u32,
) -> Result<bool, AllocError>
    requires node { IsNodeLp instance.now path.now.conditions node.old }
    requires clean { IsClean node.old.program }
    ensures grown { IfOk result (λ more. more ≡ true → HasGrown instance.now path.now.conditions node.old node.new) }
    ensures same { IfOk result (λ more. more ≡ false → node.new ≡ node.old) }
{
    if left == PURGES || node.lp().rounds() > 1 {
        return Ok(false);
    }
    price(alloc, instance, path, node)
}

/// Adds undecided pairs of negative reduced cost, and says whether there were any.
fn price(
    alloc: Global,
    instance: &Instance,
    path: &Path,
    node: &mut NodeLp,
) -> Result<bool, AllocError>
    requires node { IsNodeLp instance.now path.now.conditions node.old }
    requires clean { IsClean node.old.program }
    ensures grown { IfOk result (λ more. more ≡ true → HasGrown instance.now path.now.conditions node.old node.new) }
    ensures same { IfOk result (λ more. more ≡ false → node.new ≡ node.old) }
    ensures priced { IfOk result (λ more. more ≡ false → IsPriced instance.now path.now.conditions node.old.program (newest_duals node.old.program.last)) }
{
    node.add_negative(alloc, instance, path)
}

/// Whether a path is that of the root, which has the fixed pairs of its instance alone.
fn is_root(path: &Path) -> bool {
    match path.conditions().last() {
        Some(Cond::Fixed(..)) | None => true,
        Some(_) => false,
    }
}

/// Adds what a node's newest answer lacks; where that is nothing, what the search for odd cuts answered.
fn grow<B: CutBox>(
    alloc: Global,
    instance: &Instance,
    shared: &mut B,
    path: &Path,
    node: &mut NodeLp,
    odd: &mut OddSearch,
    turn: &mut Turn,
) -> Result<Option<OddAnswer>, AllocError>
    requires node { IsNodeLp instance.now path.now.conditions node.old }
    requires clean { IsClean node.old.program }
    requires room { length node.old.program.rows + 4096 ≤ 4194304 }
    ensures grown { IfOk result (λ end. end ≡ None → HasGrown instance.now path.now.conditions node.old node.new) }
    ensures same { IfOk result (λ end. IfSome end (λ _. node.new ≡ node.old)) }
    ensures full { IfOk result (λ end. IfSome end (LacksNothingOdd instance.now path.now.conditions node.old.program)) }
{
    if is_root(path) {
        return grow_by_all(alloc, instance, shared, path, node, odd, turn);
    }
    match odd.early(alloc, node.lp())? {
        Some(asked) => grow_as_asked(alloc, instance, shared, path, node, asked, turn),
        None => grow_and_ask(alloc, instance, shared, path, node, odd, turn),
    }
}

/// The same at the root, where each round adds what all searches find: as it begins without cuts, it has the most rounds of all nodes, and other threads
/// wait for its children.
fn grow_by_all<B: CutBox>(
    alloc: Global,
    instance: &Instance,
    shared: &mut B,
    path: &Path,
    node: &mut NodeLp,
    odd: &mut OddSearch,
    turn: &mut Turn,
) -> Result<Option<OddAnswer>, AllocError>
    requires node { IsNodeLp instance.now path.now.conditions node.old }
    requires clean { IsClean node.old.program }
    requires room { length node.old.program.rows + 4096 ≤ 4194304 }
    ensures grown { IfOk result (λ end. end ≡ None → HasGrown instance.now path.now.conditions node.old node.new) }
    ensures same { IfOk result (λ end. IfSome end (λ _. node.new ≡ node.old)) }
    ensures full { IfOk result (λ end. IfSome end (LacksNothingOdd instance.now path.now.conditions node.old.program)) }
{
    let missed = newly_missed(alloc, instance, shared, node.lp(), node.cuts(), turn, true)?;
    let Asked { cuts, answer } = odd.asked(alloc, node.lp())?;
    let all = with_others(node.lp(), cuts, missed)?;
    if !all.is_empty() {
        add_all(alloc, shared, node, all)?;
        return Ok(None);
    }
    if price(alloc, instance, path, node)? {
        return Ok(None);
    }
    Ok(Some(answer))
}

/// Cuts that a program's newest answer misses, and others that it misses after them: the first 4,096.
fn with_others(_lp: &Lp, cuts: Vec<Cut>, others: Vec<Cut>) -> Result<Vec<Cut>, AllocError>
    requires cuts { All (IsCut _lp.now.n) cuts.items }
    requires missed { All (IsMissed _lp.now) cuts.items }
    requires solved { 1 ≤ length cuts.items → HasSolved _lp.now.last }
    requires other_cuts { All (IsCut _lp.now.n) others.items }
    requires others_missed { All (IsMissed _lp.now) others.items }
    requires others_solved { 1 ≤ length others.items → HasSolved _lp.now.last }
    ensures cuts { IfOk result (λ all. All (IsCut _lp.now.n) all.items) }
    ensures missed { IfOk result (λ all. All (IsMissed _lp.now) all.items) }
    ensures few { IfOk result (λ all. length all.items ≤ 4096) }
    ensures solved { IfOk result (λ all. 1 ≤ length all.items → HasSolved _lp.now.last) }
    ensures none { IfOk result (λ all. length all.items ≡ 0 → length cuts.items ≡ 0) }
    ensures no_others { IfOk result (λ all. length all.items ≡ 0 → length others.items ≡ 0) }
{
    let mut all = cuts;
    let mut rest = others;
    all.append(&mut rest)?;
    all.truncate(MANY);
    Ok(all)
}

/// The same where the search for odd cuts was asked first.
fn grow_as_asked<B: CutBox>(
    alloc: Global,
    instance: &Instance,
    shared: &mut B,
    path: &Path,
    node: &mut NodeLp,
    asked: Asked,
    turn: &mut Turn,
) -> Result<Option<OddAnswer>, AllocError>
    requires node { IsNodeLp instance.now path.now.conditions node.old }
    requires clean { IsClean node.old.program }
    requires room { length node.old.program.rows + 4096 ≤ 4194304 }
    requires cuts { All (IsCut node.old.program.n) asked.cuts.items }
    requires missed { All (IsMissed node.old.program) asked.cuts.items }
    requires few { length asked.cuts.items ≤ 4096 }
    requires solved { 1 ≤ length asked.cuts.items → HasSolved node.old.program.last }
    requires answer { length asked.cuts.items ≡ 0 → AnswersOdd node.old.program.last asked.answer }
    ensures grown { IfOk result (λ end. end ≡ None → HasGrown instance.now path.now.conditions node.old node.new) }
    ensures same { IfOk result (λ end. IfSome end (λ _. node.new ≡ node.old)) }
    ensures full { IfOk result (λ end. IfSome end (LacksNothingOdd instance.now path.now.conditions node.old.program)) }
{
    let Asked { cuts, answer } = asked;
    if !cuts.is_empty() {
        add_all(alloc, shared, node, cuts)?;
        return Ok(None);
    }
    if grow_plainly(alloc, instance, shared, path, node, turn)? {
        return Ok(None);
    }
    Ok(Some(answer))
}

/// The same where the search for odd cuts is asked last.
fn grow_and_ask<B: CutBox>(
    alloc: Global,
    instance: &Instance,
    shared: &mut B,
    path: &Path,
    node: &mut NodeLp,
    odd: &mut OddSearch,
    turn: &mut Turn,
) -> Result<Option<OddAnswer>, AllocError>
    requires node { IsNodeLp instance.now path.now.conditions node.old }
    requires clean { IsClean node.old.program }
    requires room { length node.old.program.rows + 4096 ≤ 4194304 }
    ensures grown { IfOk result (λ end. end ≡ None → HasGrown instance.now path.now.conditions node.old node.new) }
    ensures same { IfOk result (λ end. IfSome end (λ _. node.new ≡ node.old)) }
    ensures full { IfOk result (λ end. IfSome end (LacksNothingOdd instance.now path.now.conditions node.old.program)) }
{
    if grow_plainly(alloc, instance, shared, path, node, turn)? {
        return Ok(None);
    }
    let Asked { cuts, answer } = odd.asked(alloc, node.lp())?;
    if cuts.is_empty() {
        return Ok(Some(answer));
    }
    add_all(alloc, shared, node, cuts)?;
    Ok(None)
}

/// Adds what a node's newest answer lacks beside odd cuts, and says whether that was anything.
fn grow_plainly<B: CutBox>(
    alloc: Global,
    instance: &Instance,
    shared: &mut B,
    path: &Path,
    node: &mut NodeLp,
    turn: &mut Turn,
) -> Result<bool, AllocError>
    requires node { IsNodeLp instance.now path.now.conditions node.old }
    requires clean { IsClean node.old.program }
    requires room { length node.old.program.rows + 4096 ≤ 4194304 }
    ensures grown { IfOk result (λ more. more ≡ true → HasGrown instance.now path.now.conditions node.old node.new) }
    ensures same { IfOk result (λ more. more ≡ false → node.new ≡ node.old) }
    ensures full { IfOk result (λ more. more ≡ false → LacksNothing instance.now path.now.conditions node.old.program) }
{
    let missed = newly_missed(alloc, instance, shared, node.lp(), node.cuts(), turn, false)?;
    if missed.is_empty() {
        return price(alloc, instance, path, node);
    }
    add_all(alloc, shared, node, missed)?;
    Ok(true)
}

/// Adds cuts that the newest answer misses, and shares them.
fn add_all<B: CutBox>(
    alloc: Global,
    shared: &mut B,
    node: &mut NodeLp,
    cuts: Vec<Cut>,
) -> Result<(), AllocError>
    requires clean { IsClean node.old.program }
    requires solved { HasSolved node.old.program.last }
    requires some { 1 ≤ length cuts.items }
    requires few { length cuts.items ≤ 4096 }
    requires cuts { All (IsCut node.old.program.n) cuts.items }
    requires missed { All (IsMissed node.old.program) cuts.items }
    requires room { length node.old.program.rows + 4096 ≤ 4194304 }
    ensures grown { OnOk result ((i : TheInstance) (path : List Condition) → IsNodeLp i path node.old → HasGrown i path node.old node.new) }
{
    share_all(alloc, shared, &cuts)?;
    node.add_cuts(alloc, cuts)
}

/// Cuts that the newest values miss by 2^10 units or more, if the newest answer is Solved: those of the box where it is its turn, and where there are none or all
/// are asked for those of the separations, none only where they miss no cut of these. The handles of the cuts that are there are tried too.
fn newly_missed<B: CutBox>(
    alloc: Global,
    instance: &Instance,
    shared: &mut B,
    lp: &Lp,
    there: &[(Cut, u32)],
    turn: &mut Turn,
    by_all: bool,
) -> Result<Vec<Cut>, AllocError>
    requires cities { lp.now.n ≡ instance.now.n }
    requires clean { IsClean lp.now }
    ensures cuts { IfOk result (λ cuts. All (IsCut lp.now.n) cuts.items) }
    ensures missed { IfOk result (λ cuts. All (IsMissed lp.now) cuts.items) }
    ensures few { IfOk result (λ cuts. length cuts.items ≤ 4096) }
    ensures solved { IfOk result (λ cuts. 1 ≤ length cuts.items → HasSolved lp.now.last) }
    ensures none { IfOk result (λ cuts. length cuts.items ≡ 0 → MissesNone lp.now.last) }
{
    match lp.last() {
        Some(LpAnswer::Solved { x, .. }) => fetched_or_found(
            alloc, instance, shared, x, there, turn, by_all,
        ),
        _ => Ok(Vec::new(alloc)),
    }
}

/// Cuts that the values miss by 2^10 units or more: those of the box where it is its turn, and where there are none or all are asked for those of the
/// separations after them.
fn fetched_or_found<B: CutBox>(
    alloc: Global,
    instance: &Instance,
    shared: &mut B,
    x: &Frac,
    there: &[(Cut, u32)],
    turn: &mut Turn,
    by_all: bool,
) -> Result<Vec<Cut>, AllocError>
    requires cities { x.now.n ≡ instance.now.n }
    ensures worth { IfOk result (λ cuts. All (IsWorth x.now) cuts.items) }
    ensures few { IfOk result (λ cuts. length cuts.items ≤ 4096) }
    ensures none { IfOk result (λ cuts. length cuts.items ≡ 0 → MissesNoCut x.now) }
{
    let mut cuts = turn.fetched(alloc, shared, x)?;
    if !by_all && !cuts.is_empty() {
        return Ok(cuts);
    }
    let known = handles_of(alloc, there)?;
    let mut found = missed_cuts(alloc, instance, x, &known)?;
    cuts.append(&mut found)?;
    cuts.truncate(MANY);
    Ok(cuts)
}
