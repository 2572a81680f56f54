// What holds of every job.
ghost use Rattle.std.specs.Prelude.{List, IfSome};
ghost use Rattle.clap.specs.Words.{Text};
ghost use Rattle.live_words.specs.Jobs.{job_of, AsksFewRounds};

/// Whatever the words ask for, the generated workload has at most `MOST_ROUNDS` rounds.
pub fn rounds_are_few()
    ensures { (words : List Text) → IfSome (job_of words) AsksFewRounds }
{}
