//! Laws of requests and mail: each is the contract of a function with an empty body.
ghost use Rattle.st_steal.specs.Laws.{AnswerLaws, GivenLaws, RequestLaws, MailLaws, AgainKeeps};

/// Only who has begun an answer may put a chain into the asker's mail, or tell the answer, and only before it is told.
pub fn answer_laws()
    ensures { AnswerLaws }
{}

/// A chain that was given is taken once, by the worker to which it was given.
pub fn given_laws()
    ensures { GivenLaws }
{}

/// A request goes through its states by the steps of its asker and its answerer alone; of a withdrawal and an answer only one succeeds.
pub fn request_laws()
    ensures { RequestLaws }
{}

/// A chain that is put into mail is in that slot alone, and the slot is empty once it is taken.
pub fn mail_laws()
    ensures { MailLaws }
{}

/// After a compare and exchange that found another word, nothing has changed, and the worker's view neither.
pub fn again_keeps()
    ensures { AgainKeeps }
{}
