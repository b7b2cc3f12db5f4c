//! Laws without code.
ghost use Rattle.st_answers.specs.Answers.{AnswersKeep};

/// A worker that polls or answers a request fits its board's view behind each step.
pub fn answers_keep()
    ensures { AnswersKeep }
{}
