//! The calls on requests and mail as calls of a worker: beside its arguments each takes what the view after it is named by, so that a caller can
//! name the view by its own state, at a call through a bound.
ghost use Rattle.std.specs.Prelude.{◌≡◌, ℕ, Some, None};
ghost use Rattle.st_words.specs.Encodings.{asking, answering_word};
ghost use Rattle.st_words.specs.Made.{Asked, StepMade};
ghost use Rattle.st_words.specs.Steps.{RequestLoad, RequestChange, MailLoad, MailStore, SlotTake, SlotPut, Done, Number, Took};
ghost use Rattle.st_words.specs.declared.view.Cargo.{Cargo};
ghost use Rattle.st_words.specs.declared.view.Slot.TheVariants as slots;
ghost use Rattle.st_steal.specs.Words.{set_word, told_word, IsTried, IsAsker, IsMail};

use crate::found::Mail;
use crate::requests;
use st_base::chain::{Again, Chain};
use st_words::board::{Board, NamesView};

/// `ask` of a worker.
pub fn ask_by<B: Board, N: NamesView, T>(
    _by: &T,
    board: &mut B,
    w: u32,
    v: u32,
) -> Result<(), Again>
    requires may { Asked B.view B.serves B.says B.forward B.moves N.after board.old w (RequestChange v 0 (asking w)) }
    ensures made { (found : ℕ) × StepMade B.view B.serves B.says B.did N.after board.old w (RequestChange v 0 (asking w)) (Number found) board.new × IsTried 0 found result }
{
    requests::ask::<B, N>(board, w, v)
}

/// `asked` of a worker.
pub fn asked_by<B: Board, N: NamesView, T>(_by: &T, board: &mut B, w: u32) -> Option<u32>
    requires may { Asked B.view B.serves B.says B.forward B.moves N.after board.old w (RequestLoad w) }
    ensures made { (found : ℕ) × StepMade B.view B.serves B.says B.did N.after board.old w (RequestLoad w) (Number found) board.new × IsAsker found result }
{
    requests::asked::<B, N>(board, w)
}

/// `begin_answer` of a worker.
pub fn begin_answer_by<B: Board, N: NamesView, T>(
    _by: &T,
    board: &mut B,
    w: u32,
    a: u32,
) -> Result<(), Again>
    requires may { Asked B.view B.serves B.says B.forward B.moves N.after board.old w (RequestChange w (asking a) answering_word) }
    ensures made { (found : ℕ) × StepMade B.view B.serves B.says B.did N.after board.old w (RequestChange w (asking a) answering_word) (Number found) board.new × IsTried (asking a) found result }
{
    requests::begin_answer::<B, N>(board, w, a)
}

/// `set_mail` of a worker.
pub fn set_mail_by<B: Board, N: NamesView, T>(_by: &T, board: &mut B, w: u32, waiting: bool)
    requires may { Asked B.view B.serves B.says B.forward B.moves N.after board.old w (MailStore w (set_word waiting)) }
    ensures made { StepMade B.view B.serves B.says B.did N.after board.old w (MailStore w (set_word waiting)) Done board.new }
{
    requests::set_mail::<B, N>(board, w, waiting);
}

/// `put_mail` of a worker.
pub fn put_mail_by<B: Board, N: NamesView, T>(_by: &T, board: &mut B, w: u32, v: u32, c: Chain)
    requires may { Asked B.view B.serves B.says B.forward B.moves N.after board.old w (SlotPut (slots.Mail v) c (N.cargo (B.view board.old w) (slots.Mail v) c)) }
    ensures made { StepMade B.view B.serves B.says B.did N.after board.old w (SlotPut (slots.Mail v) c (N.cargo (B.view board.old w) (slots.Mail v) c)) Done board.new }
{
    requests::put_mail::<B, N>(board, w, v, c);
}

/// `tell_mail` of a worker.
pub fn tell_mail_by<B: Board, N: NamesView, T>(_by: &T, board: &mut B, w: u32, v: u32, given: bool)
    requires may { Asked B.view B.serves B.says B.forward B.moves N.after board.old w (MailStore v (told_word given)) }
    ensures made { StepMade B.view B.serves B.says B.did N.after board.old w (MailStore v (told_word given)) Done board.new }
{
    requests::tell_mail::<B, N>(board, w, v, given);
}

/// `clear` of a worker.
pub fn clear_by<B: Board, N: NamesView, T>(_by: &T, board: &mut B, w: u32)
    requires may { Asked B.view B.serves B.says B.forward B.moves N.after board.old w (RequestChange w answering_word 0) }
    ensures made { (found : ℕ) × StepMade B.view B.serves B.says B.did N.after board.old w (RequestChange w answering_word 0) (Number found) board.new }
{
    requests::clear::<B, N>(board, w);
}

/// `withdraw` of a worker.
pub fn withdraw_by<B: Board, N: NamesView, T>(
    _by: &T,
    board: &mut B,
    w: u32,
    v: u32,
) -> Result<(), Again>
    requires may { Asked B.view B.serves B.says B.forward B.moves N.after board.old w (RequestChange v (asking w) 0) }
    ensures made { (found : ℕ) × StepMade B.view B.serves B.says B.did N.after board.old w (RequestChange v (asking w) 0) (Number found) board.new × IsTried (asking w) found result }
{
    requests::withdraw::<B, N>(board, w, v)
}

/// `mail` of a worker.
pub fn mail_by<B: Board, N: NamesView, T>(_by: &T, board: &mut B, w: u32) -> Mail
    requires may { Asked B.view B.serves B.says B.forward B.moves N.after board.old w MailLoad }
    ensures made { (found : ℕ) × StepMade B.view B.serves B.says B.did N.after board.old w MailLoad (Number found) board.new × IsMail found result }
{
    requests::mail::<B, N>(board, w)
}

/// `take_mail` of a worker.
pub fn take_mail_by<B: Board, N: NamesView, T>(_by: &T, board: &mut B, w: u32) -> Chain
    requires may { Asked B.view B.serves B.says B.forward B.moves N.after board.old w (SlotTake (slots.Mail w)) }
    requires there { (cargo : Cargo) → B.says board.old w (SlotTake (slots.Mail w)) (Took None cargo) → ⊥ }
    ensures told { (cargo : Cargo) × StepMade B.view B.serves B.says B.did N.after board.old w (SlotTake (slots.Mail w)) (Took (Some result) cargo) board.new }
{
    requests::take_mail::<B, N>(board, w)
}
