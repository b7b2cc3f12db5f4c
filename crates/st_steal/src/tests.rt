//! Two workers over a board, of which worker 0 asks worker 1: a withdrawal and an answer in every order; and a list of ready numbers.
ghost use Rattle.std.specs.Prelude.{◌≡◌, ◌<◌, true, false, length, IfOk};
ghost use Rattle.st_words.specs.Laws.{named, progress_of};
ghost use Rattle.st_words.specs.Plain.{view_at};
ghost use Rattle.st_words.specs.Views.{no_cargo};
ghost use Rattle.st_steal.specs.Trying.{AskerHas, AnswererHas, MailHas, waits_on, gives, giving};

use crate::found::Mail;
use crate::ready::ReadyList;
use crate::requests::{
    ask, asked, begin_answer, clear, mail, put_mail, set_mail, take_mail, tell_mail, withdraw,
};
use st_base::chain::{Again, Chain, Note, Waiting};
use st_base::limits::Limits;
use st_words::board::{Board, NamesView};
use st_words::plain::PlainBoard;
use std::alloc::{AllocError, Global};
use std::marker::Brand;
use std::test::Fail;

/// Names the view after a step by the step alone.
struct Plainly;

impl NamesView for Plainly {
    ghost after = { λ v s a. named (progress_of v) v s a };

    ghost cargo = { λ _ _ _. no_cargo };
}

/// Names the view after a step of a worker that has come to have the chain of cell 7 in its turn.
struct Giving;

impl NamesView for Giving {
    ghost after = { λ v s a. named (progress_of (giving v)) (giving v) s a };

    ghost cargo = { λ _ _ _. no_cargo };
}

fn limits() -> Limits {
    Limits {
        stack: 1024,
        cells: 16,
        steps: 1,
    }
}

/// The chain that worker 1 gives.
fn chain() -> Chain
    ensures { result.cell ≡ 7 }
{
    Chain {
        cell: 7,
        pc: 0x1_0000,
        fp: 0x8000_0400,
        saved: [0; 11],
        note: Note {
            cell: 7,
            forks: 0,
            counters: 0,
            bytes: 0,
        },
        wait: Waiting::Ready,
    }
}

/// A board of two workers with 16 cells.
fn opened(alloc: Global) -> Result<PlainBoard, AllocError>
    ensures serves { IfOk result (λ board. 1 < length board.kept.views) }
    ensures asker { IfOk result (λ board. AskerHas (view_at board.kept.views 0) false true false false) }
    ensures answerer { IfOk result (λ board. AnswererHas (view_at board.kept.views 1) false false false false) }
    ensures mail { IfOk result (λ board. MailHas board.words false) }
{
    let limits = limits();
    let board = PlainBoard::open::<Brand>(alloc, &limits, 2)?;
    Ok(board)
}

/// What worker 0 has come to.
#[derive(Clone, Copy)]
struct Asker {
    /// Its request stands.
    asks: bool,
    /// Its mail word is known to be nothing or waiting.
    quiet: bool,
    /// It has read that a chain was given, and hasn't taken it yet.
    given: bool,
    /// It has taken a chain.
    taken: bool,
}

/// What worker 1 has come to.
#[derive(Clone, Copy)]
struct Answerer {
    /// It has begun to answer, and hasn't ended the request yet.
    begun: bool,
    /// It has put a chain into the mail.
    put: bool,
    /// It has told its answer.
    told: bool,
    /// It has ended the request.
    ended: bool,
}

const UNASKED: Answerer = Answerer {
    begun: false,
    put: false,
    told: false,
    ended: false,
};

/// Two workers, of which worker 0 asks worker 1, once.
#[derive(Drop)]
struct Pair {
    board: PlainBoard,
    asker: Asker,
    answerer: Answerer,
    /// A chain lies in the mail of worker 0.
    full: bool,
    ghost serves: { 1 < length board.kept.views },
    ghost asker_has: { AskerHas (view_at board.kept.views 0) asker.asks asker.quiet asker.given asker.taken },
    ghost answerer_has: { AnswererHas (view_at board.kept.views 1) answerer.begun answerer.put answerer.told answerer.ended },
    ghost mail_has: { MailHas board.words full },
}

/// No answer was read yet.
fn waits_on(found: Mail) -> bool
    ensures { result ≡ waits_on found }
{
    matches!(found, Mail::Nothing | Mail::Waiting)
}

/// A chain was given.
fn gives(found: Mail) -> bool
    ensures { result ≡ gives found }
{
    matches!(found, Mail::Given)
}

impl Pair {
    fn open(alloc: Global) -> Result<Pair, AllocError> {
        let board = opened(alloc)?;
        Ok(Pair {
            board,
            asker: Asker {
                asks: false,
                quiet: true,
                given: false,
                taken: false,
            },
            answerer: UNASKED,
            full: false,
        })
    }

    fn set(&mut self, waiting: bool)
        requires asks { self.old.asker.asks ≡ false }
        requires given { self.old.asker.given ≡ false }
    {
        set_mail::<PlainBoard, Plainly>(&mut self.board, 0, waiting);
        self.asker.quiet = true;
    }

    fn ask(&mut self) -> Result<(), Again>
        requires asks { self.old.asker.asks ≡ false }
        requires quiet { self.old.asker.quiet ≡ true }
        requires given { self.old.asker.given ≡ false }
    {
        let answer = ask::<PlainBoard, Plainly>(&mut self.board, 0, 1);
        self.asker.asks = answer.is_ok();
        answer
    }

    fn withdraw(&mut self) -> Result<(), Again>
        requires { self.old.asker.asks ≡ true }
    {
        let answer = withdraw::<PlainBoard, Plainly>(&mut self.board, 0, 1);
        self.asker.asks = answer.is_err();
        answer
    }

    fn read(&mut self) -> Mail
        requires asks { self.old.asker.asks ≡ true }
        requires given { self.old.asker.given ≡ false }
    {
        let found = mail::<PlainBoard, Plainly>(&mut self.board, 0);
        let waits = waits_on(found);
        self.asker.asks = waits;
        self.asker.quiet = waits;
        self.asker.given = gives(found);
        found
    }

    fn take(&mut self) -> Chain
        requires given { self.old.asker.given ≡ true }
        requires taken { self.old.asker.taken ≡ false }
        requires full { self.old.full ≡ true }
    {
        let chain = take_mail::<PlainBoard, Plainly>(&mut self.board, 0);
        self.asker.given = false;
        self.asker.taken = true;
        self.full = false;
        chain
    }

    fn asked(&mut self) -> Option<u32> {
        asked::<PlainBoard, Plainly>(&mut self.board, 1)
    }

    fn begin(&mut self) -> Result<(), Again>
        requires begun { self.old.answerer.begun ≡ false }
        requires ended { self.old.answerer.ended ≡ false }
    {
        let answer = begin_answer::<PlainBoard, Plainly>(&mut self.board, 1, 0);
        let begun = answer.is_ok();
        self.answerer = Answerer { begun, ..UNASKED };
        answer
    }

    fn put(&mut self)
        requires begun { self.old.answerer.begun ≡ true }
        requires put { self.old.answerer.put ≡ false }
        requires told { self.old.answerer.told ≡ false }
        requires ended { self.old.answerer.ended ≡ false }
    {
        put_mail::<PlainBoard, Giving>(&mut self.board, 1, 0, chain());
        self.answerer.put = true;
        self.full = true;
    }

    fn tell(&mut self)
        requires begun { self.old.answerer.begun ≡ true }
        requires told { self.old.answerer.told ≡ false }
        requires ended { self.old.answerer.ended ≡ false }
    {
        tell_mail::<PlainBoard, Plainly>(&mut self.board, 1, 0, self.answerer.put);
        self.answerer.told = true;
    }

    fn clear(&mut self)
        requires begun { self.old.answerer.begun ≡ true }
        requires told { self.old.answerer.told ≡ true }
        requires ended { self.old.answerer.ended ≡ false }
    {
        clear::<PlainBoard, Plainly>(&mut self.board, 1);
        self.answerer.begun = false;
        self.answerer.ended = true;
    }
}

/// What the two find: worker 0 withdraws its request, worker 1 looks for one and begins to answer it.
#[derive(Clone, Copy, PartialEq, Eq, Debug)]
struct Race {
    withdrawn: Option<Result<(), Again>>,
    found: Option<u32>,
    begun: Option<Result<(), Again>>,
}

impl Pair {
    /// Makes the two steps of each worker in this order: true for a step of worker 0.
    fn race(&mut self, order: [bool; 4]) -> Race {
        let mut seen = Race {
            withdrawn: None,
            found: None,
            begun: None,
        };
        let mut looked = false;
        for turn in order {
            if turn {
                seen = self.step_asker(seen);
            } else {
                seen = self.step_answerer(seen, looked);
                looked = true;
            }
        }
        seen
    }

    /// Worker 0 asks, or withdraws its request.
    fn step_asker(&mut self, seen: Race) -> Race {
        let asker = self.asker;
        if asker.asks {
            let withdrawn = Some(self.withdraw());
            return Race { withdrawn, ..seen };
        }
        if asker.quiet && !asker.given {
            let _ = self.ask();
        }
        seen
    }

    /// Worker 1 looks for a request, and where it has looked it begins to answer.
    fn step_answerer(&mut self, seen: Race, looked: bool) -> Race {
        let answerer = self.answerer;
        if looked && !answerer.begun && !answerer.ended {
            let begun = Some(self.begin());
            return Race { begun, ..seen };
        }
        let found = self.asked();
        Race { found, ..seen }
    }
}

/// What the two workers of a fresh board find in this order.
fn run_in_order(alloc: Global, order: [bool; 4]) -> Result<Race, AllocError> {
    let mut pair = Pair::open(alloc)?;
    Ok(pair.race(order))
}

/// What worker 0 does while no request of it stands.
#[derive(Clone, Copy, PartialEq, Eq)]
enum Stage {
    /// It says that it waits.
    Waits,
    /// It asks.
    Asks,
    /// It says that it wants nothing more.
    Ends,
    /// It does nothing.
    Rests,
}

/// What the two have found, of a request that is withdrawn or answered.
#[derive(Clone, Copy)]
struct Seen {
    withdrawn: Option<Result<(), Again>>,
    begun: Option<Result<(), Again>>,
    /// Worker 0 has read that it was refused.
    refused: bool,
    /// Worker 0 has taken the chain of cell 7.
    taken: bool,
}

/// Two workers that make their moves one by one. Worker 0 asks, looks into its mail, withdraws its request, waits for the answer where that has
/// begun, and takes the chain. Worker 1 looks for a request and answers it, by a chain or by a refusal.
#[derive(Drop)]
struct Meeting {
    pair: Pair,
    /// Worker 1 has a chain to give.
    gives: bool,
    stage: Stage,
    /// Worker 0 has looked into its mail.
    looked: bool,
    /// Worker 1 has found a request, which it will try to answer.
    found: bool,
    seen: Seen,
}

impl Meeting {
    fn open(alloc: Global, gives: bool) -> Result<Meeting, AllocError> {
        let pair = Pair::open(alloc)?;
        Ok(Meeting {
            pair,
            gives,
            stage: Stage::Waits,
            looked: false,
            found: false,
            seen: Seen {
                withdrawn: None,
                begun: None,
                refused: false,
                taken: false,
            },
        })
    }

    /// A move of worker 0.
    fn move_asker(&mut self) {
        let asker = self.pair.asker;
        if asker.given {
            self.take();
        } else if asker.asks {
            self.wait();
        } else {
            self.go_on();
        }
    }

    /// Takes the chain. Where there is none, or it was taken before, worker 0 never rests.
    fn take(&mut self)
        requires { self.old.pair.asker.given ≡ true }
    {
        if self.pair.full && !self.pair.asker.taken {
            self.seen.taken = self.pair.take().cell == 7;
        }
    }

    /// Looks into the mail, then tries once to withdraw the request, and then waits for the answer.
    fn wait(&mut self)
        requires asks { self.old.pair.asker.asks ≡ true }
        requires given { self.old.pair.asker.given ≡ false }
    {
        if self.looked && self.seen.withdrawn.is_none() {
            self.seen.withdrawn = Some(self.pair.withdraw());
        } else {
            self.looked = true;
            self.seen.refused = self.pair.read() == Mail::Refused;
        }
    }

    fn go_on(&mut self)
        requires asks { self.old.pair.asker.asks ≡ false }
        requires given { self.old.pair.asker.given ≡ false }
    {
        match self.stage {
            Stage::Waits => {
                self.pair.set(true);
                self.stage = Stage::Asks;
            }
            Stage::Asks => {
                if self.pair.asker.quiet && self.pair.ask().is_ok() {
                    self.stage = Stage::Ends;
                }
            }
            Stage::Ends => {
                self.pair.set(false);
                self.stage = Stage::Rests;
            }
            Stage::Rests => {}
        }
    }

    /// A move of worker 1.
    fn move_answerer(&mut self) {
        let Answerer {
            begun,
            put,
            told,
            ended,
        } = self.pair.answerer;
        if ended {
            return;
        }
        if !begun {
            self.look();
        } else if told {
            self.pair.clear();
        } else if self.gives && !put {
            self.pair.put();
        } else {
            self.pair.tell();
        }
    }

    /// Looks for a request, and tries to begin its answer.
    fn look(&mut self)
        requires begun { self.old.pair.answerer.begun ≡ false }
        requires ended { self.old.pair.answerer.ended ≡ false }
    {
        if self.found {
            self.seen.begun = Some(self.pair.begin());
            self.found = false;
        } else {
            self.found = self.pair.asked() == Some(0);
        }
    }

    /// Makes moves in this order, until both rest.
    fn run(&mut self, order: u32) {
        for turn in 0..40 {
            if is_askers(order, turn) {
                self.move_asker();
            } else {
                self.move_answerer();
            }
        }
    }

    /// Both rest, nobody asks, and no chain lies in the mail.
    fn is_over(&mut self) -> bool {
        let rests = self.stage == Stage::Rests && !self.pair.answerer.begun;
        let is_free = self.pair.asked().is_none();
        rests && is_free && !self.pair.full
    }

    /// The tally with this meeting.
    fn counted(&mut self, tally: Tally) -> Tally {
        let is_right = self.is_over() && is_right(self.seen, self.gives);
        count(tally, self.seen, is_right)
    }
}

const DONE: Option<Result<(), Again>> = Some(Ok(()));

/// How many moves the two make at most, beside looks that find nothing new.
const MOVES: u32 = 12;

/// Whether worker 0 makes this move: each order of the first moves is one of the numbers below 2^12, and then they take turns.
fn is_askers(order: u32, turn: u32) -> bool {
    if turn < MOVES {
        (order >> turn) % 2 == 1
    } else {
        turn % 2 == 1
    }
}

/// How the meetings in several orders came out.
#[derive(Clone, Copy)]
struct Tally {
    /// Just one of the withdrawal and the answer succeeded, and the chain that was given was taken.
    right: u32,
    /// The answer came too late.
    withdrawn: u32,
    /// The withdrawal came too late.
    answered: u32,
}

/// Whether what was seen is right, where the meeting is over.
fn is_right(seen: Seen, gives: bool) -> bool {
    let begun = seen.begun == DONE;
    let is_one = begun != (seen.withdrawn == DONE);
    let is_taken = seen.taken == (begun & gives);
    let is_refused = seen.refused == (begun & !gives);
    is_one & is_taken & is_refused
}

fn count(tally: Tally, seen: Seen, is_right: bool) -> Tally {
    let is_withdrawn = seen.withdrawn == DONE && seen.begun == Some(GONE);
    let is_answered = seen.begun == DONE && matches!(seen.withdrawn, Some(Err(_)));
    Tally {
        right: tally.right.wrapping_add(u32::from(is_right)),
        withdrawn: tally.withdrawn.wrapping_add(u32::from(is_withdrawn)),
        answered: tally.answered.wrapping_add(u32::from(is_answered)),
    }
}

/// A meeting in this order.
fn meet(alloc: Global, tally: Tally, order: u32, gives: bool) -> Result<Tally, AllocError> {
    let mut meeting = Meeting::open(alloc, gives)?;
    meeting.run(order);
    Ok(meeting.counted(tally))
}

/// The meetings in all orders.
fn meet_in_each_order(alloc: Global, gives: bool) -> Result<Tally, AllocError> {
    let mut tally = Tally {
        right: 0,
        withdrawn: 0,
        answered: 0,
    };
    for order in 0..1 << MOVES {
        tally = meet(alloc, tally, order, gives)?;
    }
    Ok(tally)
}

const GONE: Result<(), Again> = Err(Again { now: 0 });

const TAKEN: Result<(), Again> = Err(Again { now: 32 });

#[test]
fn in_each_order_one_of_a_withdrawal_and_an_answer_succeeds(rt: HostRuntime) -> Result<(), Fail> {
    for gives in [true, false] {
        let tally = meet_in_each_order(rt.alloc(), gives)?;
        let is_each = tally.right == 1 << MOVES;
        let is_both = tally.withdrawn > 0 && tally.answered > 0;
        assert!(rt; is_each & is_both);
    }
    Ok(())
}

#[test]
fn only_one_of_a_withdrawal_and_an_answer_succeeds(rt: HostRuntime) -> Result<(), Fail> {
    let races = [
        ([true, true, false, false], Ok(()), None, GONE),
        ([true, false, true, false], Ok(()), Some(0), GONE),
        ([true, false, false, true], TAKEN, Some(0), Ok(())),
        ([false, true, true, false], Ok(()), None, GONE),
        ([false, true, false, true], TAKEN, None, Ok(())),
        ([false, false, true, true], Ok(()), None, GONE),
    ];
    for (order, withdrawn, found, begun) in races {
        let wanted = Race {
            withdrawn: Some(withdrawn),
            found,
            begun: Some(begun),
        };
        assert!(rt; run_in_order(rt.alloc(), order)? == wanted);
    }
    Ok(())
}

#[test]
fn numbers_leave_in_the_order_in_which_they_came(rt: HostRuntime) -> Result<(), Fail> {
    let mut list = ReadyList::open(rt.alloc(), 2)?;
    list.push(7);
    list.push(8);
    let is_first = list.pop() == Some(7);
    let is_second = list.pop() == Some(8);
    let is_empty = list.pop() == None;
    assert!(rt; is_first & is_second & is_empty);
    Ok(())
}
