//! The calls on requests and mail. Each makes one step of the board, whose answer it reads.
ghost use Rattle.std.specs.Prelude.{◌≡◌, ℕ, Some, None};
ghost use Rattle.st_words.specs.Encodings.{asking, answering_word};
ghost use Rattle.st_words.specs.Made.{Asked, StepMade};
ghost use Rattle.st_words.specs.Steps.{RequestLoad, RequestChange, MailLoad, MailStore, SlotTake, SlotPut, Done, Number, Took};
ghost use Rattle.st_words.specs.declared.view.Cargo.{Cargo};
ghost use Rattle.st_words.specs.declared.view.Slot.TheVariants as slots;
ghost use Rattle.st_steal.specs.Words.{set_word, told_word, IsTried, IsAsker, IsMail};

use crate::found::Mail;
use st_base::chain::{Again, Chain};
use st_words::board::{Board, NamesView};
use st_words::view::Slot;

/// The request word while its request is answered.
const ANSWERING: u64 = 32;

/// The mail words.
const NOTHING: u64 = 0;

const WAITING: u64 = 1;

const GIVEN: u64 = 2;

const REFUSED: u64 = 3;

/// What a worker sets its own mail word to.
fn set_word(waiting: bool) -> u64
    ensures { result ≡ set_word waiting }
{
    if waiting { WAITING } else { NOTHING }
}

/// What an answer is told by.
fn told_word(given: bool) -> u64
    ensures { result ≡ told_word given }
{
    if given { GIVEN } else { REFUSED }
}

/// A compare and exchange of a request word.
fn change<B: Board, N: NamesView>(
    board: &mut B,
    w: u32,
    v: u32,
    seen: u64,
    new: u64,
) -> Result<(), Again>
    requires may { Asked B.view B.serves B.says B.forward B.moves N.after board.old w (RequestChange v seen new) }
    ensures made { (found : ℕ) × StepMade B.view B.serves B.says B.did N.after board.old w (RequestChange v seen new) (Number found) board.new × IsTried seen found result }
{
    match board.request_change::<N>(w, v, seen, new) {
        Ok(()) => Ok(()),
        Err(now) => Err(Again { now }),
    }
}

/// Puts the request of this worker at the worker `v`, where no request stands there.
///
/// Errors: `Again` exactly where another word is there, which it carries; nothing has changed then.
pub fn ask<B: Board, N: NamesView>(board: &mut B, w: u32, v: u32) -> Result<(), Again>
    requires may { Asked B.view B.serves B.says B.forward B.moves N.after board.old w (RequestChange v 0 (asking w)) }
    ensures made { (found : ℕ) × StepMade B.view B.serves B.says B.did N.after board.old w (RequestChange v 0 (asking w)) (Number found) board.new × IsTried 0 found result }
{
    change::<B, N>(board, w, v, 0, u64::from(w) + 1)
}

/// The worker that asks this one; `None` exactly where no request stands here.
pub fn asked<B: Board, N: NamesView>(board: &mut B, w: u32) -> Option<u32>
    requires may { Asked B.view B.serves B.says B.forward B.moves N.after board.old w (RequestLoad w) }
    ensures made { (found : ℕ) × StepMade B.view B.serves B.says B.did N.after board.old w (RequestLoad w) (Number found) board.new × IsAsker found result }
{
    match board.request_load::<N>(w, w) {
        0 => None,
        word => Some(((word - 1) % (1 << 32)) as u32),
    }
}

/// Begins to answer the request of the worker `a`, which can no longer withdraw it.
///
/// Errors: `Again` exactly where another word is there, which it carries; nothing has changed then.
pub fn begin_answer<B: Board, N: NamesView>(board: &mut B, w: u32, a: u32) -> Result<(), Again>
    requires may { Asked B.view B.serves B.says B.forward B.moves N.after board.old w (RequestChange w (asking a) answering_word) }
    ensures made { (found : ℕ) × StepMade B.view B.serves B.says B.did N.after board.old w (RequestChange w (asking a) answering_word) (Number found) board.new × IsTried (asking a) found result }
{
    change::<B, N>(board, w, w, u64::from(a) + 1, ANSWERING)
}

/// Sets this worker's own mail word to waiting, or to nothing.
pub fn set_mail<B: Board, N: NamesView>(board: &mut B, w: u32, waiting: bool)
    requires may { Asked B.view B.serves B.says B.forward B.moves N.after board.old w (MailStore w (set_word waiting)) }
    ensures made { StepMade B.view B.serves B.says B.did N.after board.old w (MailStore w (set_word waiting)) Done board.new }
{
    board.mail_store::<N>(w, w, set_word(waiting));
}

/// Puts a chain into the mail of the worker `v`, whose request this worker answers.
pub fn put_mail<B: Board, N: NamesView>(board: &mut B, w: u32, v: u32, c: Chain)
    requires may { Asked B.view B.serves B.says B.forward B.moves N.after board.old w (SlotPut (slots.Mail v) c (N.cargo (B.view board.old w) (slots.Mail v) c)) }
    ensures made { StepMade B.view B.serves B.says B.did N.after board.old w (SlotPut (slots.Mail v) c (N.cargo (B.view board.old w) (slots.Mail v) c)) Done board.new }
{
    board.slot_put::<N>(w, Slot::Mail(v), c);
}

/// Tells the worker `v` the answer to its request: given, where a chain was put into its mail, or refused.
pub fn tell_mail<B: Board, N: NamesView>(board: &mut B, w: u32, v: u32, given: bool)
    requires may { Asked B.view B.serves B.says B.forward B.moves N.after board.old w (MailStore v (told_word given)) }
    ensures made { StepMade B.view B.serves B.says B.did N.after board.old w (MailStore v (told_word given)) Done board.new }
{
    board.mail_store::<N>(w, v, told_word(given));
}

/// Ends the request that this worker has answered: another may ask it again.
pub fn clear<B: Board, N: NamesView>(board: &mut B, w: u32)
    requires may { Asked B.view B.serves B.says B.forward B.moves N.after board.old w (RequestChange w answering_word 0) }
    ensures made { (found : ℕ) × StepMade B.view B.serves B.says B.did N.after board.old w (RequestChange w answering_word 0) (Number found) board.new }
{
    let _ = board.request_change::<N>(w, w, ANSWERING, 0);
}

/// Withdraws this worker's request at the worker `v`.
///
/// Errors: `Again` exactly where it is no longer there, with the word that is; nothing has changed then.
pub fn withdraw<B: Board, N: NamesView>(board: &mut B, w: u32, v: u32) -> Result<(), Again>
    requires may { Asked B.view B.serves B.says B.forward B.moves N.after board.old w (RequestChange v (asking w) 0) }
    ensures made { (found : ℕ) × StepMade B.view B.serves B.says B.did N.after board.old w (RequestChange v (asking w) 0) (Number found) board.new × IsTried (asking w) found result }
{
    change::<B, N>(board, w, v, u64::from(w) + 1, 0)
}

/// Reads this worker's mail word.
pub fn mail<B: Board, N: NamesView>(board: &mut B, w: u32) -> Mail
    requires may { Asked B.view B.serves B.says B.forward B.moves N.after board.old w MailLoad }
    ensures made { (found : ℕ) × StepMade B.view B.serves B.says B.did N.after board.old w MailLoad (Number found) board.new × IsMail found result }
{
    match board.mail_load::<N>(w) {
        NOTHING => Mail::Nothing,
        WAITING => Mail::Waiting,
        GIVEN => Mail::Given,
        _ => Mail::Refused,
    }
}

/// Takes the chain that was given to this worker out of its mail. The board is one that has it there.
pub fn take_mail<B: Board, N: NamesView>(board: &mut B, w: u32) -> Chain
    requires may { Asked B.view B.serves B.says B.forward B.moves N.after board.old w (SlotTake (slots.Mail w)) }
    requires there { (cargo : Cargo) → B.says board.old w (SlotTake (slots.Mail w)) (Took None cargo) → ⊥ }
    ensures told { (cargo : Cargo) × StepMade B.view B.serves B.says B.did N.after board.old w (SlotTake (slots.Mail w)) (Took (Some result) cargo) board.new }
{
    match board.slot_take::<N>(w, Slot::Mail(w)) {
        Some(chain) => chain,
        None => unreachable!(),
    }
}
