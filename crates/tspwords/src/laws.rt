//! What the words of a command say.
ghost use Rattle.tspwords.specs.Laws.{PathsAreTaken, BudgetsAreTaken, SeedsAreTaken, BudgetsAndSeedsAreTaken, ResumeIsTaken, GapsAreTaken, ResumeAndBudgetsAreTaken, GapsAndBudgetsAreTaken, GruntsAreTaken, LoseIsTaken, TwiceIsTaken, LateIsTaken, VerifyIsTaken, TourIsTaken, TourSeedsAreTaken, BenchIsTaken, ReplayIsTaken, ReplayBudgetsAreTaken, ReplayGruntsAreTaken, BoundIsTaken, StepsAreTaken, CheckboundIsTaken, VerifierIsTaken, TakenWordsAreGiven, VerifierWordsAreGiven};

/// The words of `solve` with three paths that do not begin with a hyphen are taken, with and without a budget and a seed,
/// with `--resume`, with a gap, with either of these and a budget, and with each of `--grunts`, `--lose`, `--twice` and
/// `--late` alone, and say these paths and these numbers, or 65,536, 1, 0, 4 and 0, and which switches are set. So are the
/// words of `verify`, of `checkbound` and of the verifier with two such paths, those of `tour` with one, with and without a
/// seed, those of `bench` with three numbers within their ranges and one such path, those of `replay` with two paths, alone,
/// with a budget and with a number of grunts, and those of `bound` with two paths, with and without a number of steps.
pub fn plain_words_are_taken()
    ensures paths { PathsAreTaken }
    ensures budgets { BudgetsAreTaken }
    ensures seeds { SeedsAreTaken }
    ensures both { BudgetsAndSeedsAreTaken }
    ensures resume { ResumeIsTaken }
    ensures gaps { GapsAreTaken }
    ensures resume_budgets { ResumeAndBudgetsAreTaken }
    ensures gaps_budgets { GapsAndBudgetsAreTaken }
    ensures grunts { GruntsAreTaken }
    ensures lose { LoseIsTaken }
    ensures twice { TwiceIsTaken }
    ensures late { LateIsTaken }
    ensures verify { VerifyIsTaken }
    ensures tour { TourIsTaken }
    ensures tour_seeds { TourSeedsAreTaken }
    ensures bench { BenchIsTaken }
    ensures replay { ReplayIsTaken }
    ensures replay_budgets { ReplayBudgetsAreTaken }
    ensures replay_grunts { ReplayGruntsAreTaken }
    ensures bound { BoundIsTaken }
    ensures steps { StepsAreTaken }
    ensures checkbound { CheckboundIsTaken }
    ensures verifier { VerifierIsTaken }
{}

/// Words that are taken give each path of their command, for `solve`, `bench` and `replay` a budget from 0 to 65,536, for
/// `solve`, `tour` and `bench` a seed from 0 to 2^64 - 1, for `solve` a gap from 0 to 2^42 and a number of `--lose` from 0 to
/// 65,536, for `solve` and `replay` from 1 to 64 grunts, for `bench` from 3 to 2,000 cities, and for `bound` from 0 to 10,000
/// steps.
pub fn taken_words_are_given()
    ensures commands { TakenWordsAreGiven }
    ensures verifier { VerifierWordsAreGiven }
{}
