//! Each step once, with the words that it leaves: over the words alone, where the numbers come from the table of words in docs/board.md, and
//! over a board.
ghost use Rattle.std.specs.Prelude.{◌≡◌, ◌<◌, ◌∷◌, [], length, None, IfOk};
ghost use Rattle.st_words.specs.Encodings.{counter_word, count_after, count_in};
ghost use Rattle.st_words.specs.Laws.{named, progress_of};
ghost use Rattle.st_words.specs.Plain.{view_at, first_view, first_views};
ghost use Rattle.st_words.specs.Sizes.{SizedWords};
ghost use Rattle.st_words.specs.Views.{no_cargo, no_known, with_free};

use crate::board::{Board, NamesView};
use crate::plain::PlainBoard;
use crate::view::{CellWord, Slot};
use crate::words::Words;
use crate::zeroed::ZeroedWords;
use st_base::chain::{Chain, Note, Waiting};
use st_base::limits::Limits;
use std::alloc::{AllocError, Global};
use std::marker::Brand;
use std::test::Fail;

/// Names the view after a step by the step alone.
struct Plainly;

impl NamesView for Plainly {
    ghost after = { λ v s a. named (progress_of v) v s a };

    ghost cargo = { λ _ _ _. no_cargo };
}

/// Names the view after a step of a worker that has come to hold the root's thread, the chain of cell 5 in its turn and an exported frame,
/// whose return word is the second word of its stack.
struct Busy;

impl NamesView for Busy {
    ghost after = { λ v s a. named (record { threads = no_known ∷ []; items = 0; frame_bytes = 0 }) (with_free (record { progress = record { threads = no_known ∷ []; items = 0; frame_bytes = 0 }; child = None; chains = record no_cargo.carried { known = record no_known { note = record { cell = 5; forks = 0; counters = 0; bytes = 0 } } } ∷ []; exported = record { low = 0x8000_0000; base = 0x8000_0010 } ∷ [] }) v) s a };

    ghost cargo = { λ _ _ _. no_cargo };
}

/// Limits of 16 cells, and stacks of 128 words.
fn small() -> Limits
    ensures cells { result.cells ≡ 16 }
    ensures stack { result.stack ≡ 1024 }
{
    Limits {
        stack: 1024,
        cells: 16,
        steps: 1,
    }
}

/// The words of a board of two workers with these limits.
fn opened(alloc: Global) -> Result<Words, AllocError>
    ensures { IfOk result (λ words. SizedWords words 2 × (length words.owners ≡ 16) × (length words.stack ≡ 256)) }
{
    Words::open(alloc, &small(), 2)
}

/// The State word of a counter after one `done`.
fn counted() -> u64
    ensures { result ≡ counter_word (count_after (count_in 0)) 0 }
{
    131_072
}

fn chain(cell: u32) -> Chain
    ensures { result.cell ≡ cell }
{
    Chain {
        cell,
        pc: 0x1_0000,
        fp: 0x8000_0400,
        saved: [0; 11],
        note: Note {
            cell,
            forks: 0,
            counters: 0,
            bytes: 0,
        },
        wait: Waiting::Ready,
    }
}

/// A board of two workers with these limits.
fn fresh(alloc: Global, limits: &Limits) -> Result<PlainBoard, AllocError>
    ensures view { IfOk result (λ board. view_at board.kept.views 0 ≡ first_view limits.now 2 0) }
    ensures serves { IfOk result (λ board. 0 < length board.kept.views) }
{
    PlainBoard::open::<Brand>(alloc, limits, 2)
}

/// A board of two workers with these limits, whose first worker has taken the root's chain.
fn rooted(alloc: Global, limits: &Limits) -> Result<PlainBoard, AllocError>
    requires cells { 0 < limits.now.cells }
    ensures share { IfOk result (λ board. (view_at board.kept.views 0).share ≡ 1) }
    ensures serves { IfOk result (λ board. 0 < length board.kept.views) }
{
    let mut board = PlainBoard::open::<Brand>(alloc, limits, 2)?;
    board.root_take::<Plainly>(0);
    board.slot_take::<Plainly>(0, Slot::Cell(0));
    Ok(board)
}

/// One step of the first worker of a fresh board.
#[derive(Clone, Copy)]
enum Tried {
    LoadOwner,
    StoreValue,
    Fill,
    Stop,
    LoadRequest,
    Ask,
    SetMail,
    LoadByte,
    Put,
}

/// Makes the step, and answers what was found: 0 where nothing was, or where the step answers nothing.
fn make_step(board: &mut PlainBoard, limits: &Limits, step: &Tried) -> u64
    requires serves { 0 < length board.old.kept.views }
    requires view { view_at board.old.kept.views 0 ≡ first_view limits.now 2 0 }
    requires cells { limits.now.cells ≡ 16 }
{
    match step {
        Tried::LoadOwner => board.cell_load::<Busy>(0, 0, CellWord::Owner),
        Tried::StoreValue => {
            board.cell_store::<Busy>(0, 0, CellWord::Value, 7);
            0
        }
        Tried::Fill => found(board.cell_change::<Busy>(0, 0, 0, 4_294_967_296)),
        Tried::Stop => found(board.stop_set::<Busy>(0, 2)),
        Tried::LoadRequest => board.request_load::<Busy>(0, 1),
        Tried::Ask => found(board.request_change::<Busy>(0, 1, 0, 1)),
        Tried::SetMail => {
            board.mail_store::<Busy>(0, 0, 1);
            0
        }
        Tried::LoadByte => board.out_load::<Busy>(0, 1_048_575),
        Tried::Put => {
            board.slot_put::<Busy>(0, Slot::Cell(5), chain(5));
            0
        }
    }
}

/// What a compare and exchange found; 0 where it stored.
fn found(answer: Result<(), u64>) -> u64 {
    match answer {
        Ok(()) => 0,
        Err(found) => found,
    }
}

/// The word at a place, or 0 where there is none.
fn word(words: &[u64], at: usize) -> u64 {
    match words.get(at) {
        Some(found) => *found,
        None => 0,
    }
}

/// The word of the step: of a chain that was put the cell that it names.
fn left(words: &Words, step: &Tried) -> u64 {
    match step {
        Tried::LoadOwner => word(words.owners.as_slice(), 0),
        Tried::StoreValue => word(words.values.as_slice(), 0),
        Tried::Fill => word(words.states.as_slice(), 0),
        Tried::Stop => words.stop,
        Tried::LoadRequest | Tried::Ask => word(words.requests.as_slice(), 1),
        Tried::SetMail => word(words.mail.as_slice(), 0),
        Tried::LoadByte => 0,
        Tried::Put => match words.cell_slots.as_slice().get(5) {
            Some(Some(chain)) => chain.cell as u64,
            _ => 0,
        },
    }
}

/// Whether the step of a fresh board finds this, and leaves this word.
fn shows(alloc: Global, step: Tried, finds: u64, leaves: u64) -> Result<bool, AllocError> {
    let limits = small();
    let mut board = fresh(alloc, &limits)?;
    let answer = make_step(&mut board, &limits, &step);
    Ok(answer == finds && left(&board.words, &step) == leaves)
}

/// A stored word of the stack is read back, and is 0 once its frame is marked.
fn steps_on_a_stack(board: &mut PlainBoard, limits: &Limits) -> bool
    requires serves { 0 < length board.old.kept.views }
    requires view { view_at board.old.kept.views 0 ≡ first_view limits.now 2 0 }
    requires stack { limits.now.stack ≡ 1024 }
{
    board.stack_store::<Busy>(0, 1, 9);
    let stored = board.stack_load::<Busy>(0, 1);
    board.mark::<Busy>(0, 1);
    let looked = board.look::<Busy>(0, 1);
    let is_left = matches!(board.words.stack.as_slice().get(1), Some(0));
    (stored == 9) & (looked == 0) & is_left
}

/// A stack word is stored, and then 0.
fn is_marked(alloc: Global) -> Result<bool, AllocError> {
    let limits = small();
    let mut board = fresh(alloc, &limits)?;
    Ok(steps_on_a_stack(&mut board, &limits))
}

#[test]
fn a_board_steps_on_a_stack(rt: HostRuntime) -> Result<(), Fail> {
    assert!(rt; is_marked(rt.alloc())?);
    Ok(())
}

#[test]
fn a_board_makes_each_step(rt: HostRuntime) -> Result<(), Fail> {
    let steps = [
        (Tried::LoadOwner, 1, 1),
        (Tried::StoreValue, 0, 7),
        (Tried::Fill, 0, 4_294_967_296),
        (Tried::Stop, 0, 2),
        (Tried::LoadRequest, 0, 0),
        (Tried::Ask, 0, 1),
        (Tried::SetMail, 0, 1),
        (Tried::LoadByte, 0, 0),
        (Tried::Put, 0, 5),
    ];
    for (step, finds, leaves) in steps {
        assert!(rt; shows(rt.alloc(), step, finds, leaves)?);
    }
    Ok(())
}

/// The word of byte 3 after a step that stores it.
fn printed_word(alloc: Global) -> Result<u64, AllocError> {
    let limits = small();
    let mut board = fresh(alloc, &limits)?;
    board.out_store::<Busy>(0, 3, 256 + 65);
    Ok(board.words.out.get(3))
}

#[test]
fn a_board_prints(rt: HostRuntime) -> Result<(), Fail> {
    assert!(rt; printed_word(rt.alloc())? == 321);
    Ok(())
}

/// What is found where the active count is raised, and what is left.
fn raised(alloc: Global) -> Result<(u64, u64), AllocError> {
    let limits = small();
    let mut board = rooted(alloc, &limits)?;
    let found = board.active_add::<Plainly>(0, true);
    Ok((found, board.words.active))
}

#[test]
fn a_board_counts_what_is_active(rt: HostRuntime) -> Result<(), Fail> {
    assert!(rt; raised(rt.alloc())? == (1, 2));
    Ok(())
}

/// The first worker draws 1, 2 and so on up to 16.
fn draws(board: &mut PlainBoard) -> bool
    requires { length board.old.kept.views ≡ 2 }
{
    let mut is_each = true;
    for n in 1..17u64 {
        is_each &= board.draw::<Plainly>(0) == n;
    }
    is_each
}

fn is_drawn(alloc: Global) -> Result<bool, AllocError> {
    let mut board = PlainBoard::open::<Brand>(alloc, &small(), 2)?;
    Ok(draws(&mut board))
}

#[test]
fn draws_go_past_the_cells(rt: HostRuntime) -> Result<(), Fail> {
    assert!(rt; is_drawn(rt.alloc())?);
    Ok(())
}

/// The first worker finds Root 1 and takes the root's chain.
fn takes_root(board: &mut PlainBoard, limits: &Limits) -> bool
    requires cells { 0 < limits.now.cells }
    requires views { board.old.kept.views ≡ first_views limits.now 2 }
    ensures serves { 1 < length board.new.kept.views }
{
    if board.root_take::<Plainly>(0) {
        let found = board.slot_take::<Plainly>(0, Slot::Cell(0));
        return matches!(found, Some(Chain { cell: 0, .. }));
    }
    false
}

/// The second worker finds Root 0, one that is active, no limit, and no mail.
fn finds_nothing(board: &mut PlainBoard) -> bool
    requires { 1 < length board.old.kept.views }
{
    let takes = board.root_take::<Plainly>(1);
    let active = board.active_load::<Plainly>(1);
    let stop = board.stop_load::<Plainly>(1);
    let mail = board.mail_load::<Plainly>(1);
    !takes & (active == 1) & (stop == 0) & (mail == 0)
}

fn is_taken_once(alloc: Global) -> Result<bool, AllocError> {
    let limits = small();
    let mut board = PlainBoard::open::<Brand>(alloc, &limits, 2)?;
    Ok(takes_root(&mut board, &limits) && finds_nothing(&mut board))
}

#[test]
fn the_root_is_taken_once(rt: HostRuntime) -> Result<(), Fail> {
    assert!(rt; is_taken_once(rt.alloc())?);
    Ok(())
}

/// What is shown of the words of a board of two workers.
#[derive(Clone, Copy)]
enum Scene {
    Store,
    Root,
    State,
    Request,
    Limit,
    Slot,
    Byte,
}

/// Whether the words of a board that is opened show it.
fn plays(alloc: Global, scene: Scene) -> Result<bool, AllocError> {
    let mut words = opened(alloc)?;
    Ok(play(&mut words, scene))
}

fn play(words: &mut Words, scene: Scene) -> bool
    requires sized { SizedWords words.old 2 }
    requires cells { length words.old.owners ≡ 16 }
    requires stack { length words.old.stack ≡ 256 }
{
    match scene {
        Scene::Store => are_stored(words),
        Scene::Root => are_the_roots(words),
        Scene::State => changes_a_state(words),
        Scene::Request => changes_a_request(words),
        Scene::Limit => writes_a_limit(words),
        Scene::Slot => uses_slots(words),
        Scene::Byte => stores_a_byte(words),
    }
}

fn are_stored(words: &mut Words) -> bool
    requires sized { SizedWords words.old 2 }
    requires cells { length words.old.owners ≡ 16 }
    requires stack { length words.old.stack ≡ 256 }
{
    words.stack_store(255, 7);
    words.cell_store(15, CellWord::Next, 16);
    words.mail_store(1, 2);
    let stack = words.stack_load(255) == 7;
    let next = words.cell_load(15, CellWord::Next) == 16;
    let trap = words.cell_load(15, CellWord::Trap) == 0;
    let mail = words.mail_load(1) == 2;
    stack & next & trap & mail
}

fn are_the_roots(words: &mut Words) -> bool
    requires sized { SizedWords words.old 2 }
    requires cells { length words.old.owners ≡ 16 }
{
    let owner = words.cell_load(0, CellWord::Owner) == 1;
    let standing = words.cell_load(0, CellWord::Standing) == 3;
    let one = words.active_add(true) == 1;
    let two = words.active_add(false) == 2;
    let active = words.active == 1;
    let root = words.root_take();
    let again = words.root_take();
    owner & standing & one & two & active & root & !again
}

fn changes_a_state(words: &mut Words) -> bool
    requires sized { SizedWords words.old 2 }
    requires cells { length words.old.owners ≡ 16 }
{
    let parks = words.cell_change(5, 0, 3) == Ok(());
    let is_refused = words.cell_change(5, 0, 9) == Err(3);
    let fills = words.cell_change(5, 3, 4_294_967_296) == Ok(());
    let full = words.cell_load(5, CellWord::State) == 4_294_967_296;
    let counts = words.cell_change(6, 0, counted()) == Ok(());
    let count = words.cell_load(6, CellWord::State) == 131_072;
    parks & is_refused & fills & full & counts & count
}

/// A request that is answered is not withdrawn.
fn changes_a_request(words: &mut Words) -> bool
    requires { SizedWords words.old 2 }
{
    let asks = words.request_change(1, 0, 1) == Ok(());
    let stands = words.request_load(1) == 1;
    let begins = words.request_change(1, 1, 32) == Ok(());
    let is_refused = words.request_change(1, 1, 0) == Err(32);
    asks & stands & begins & is_refused
}

fn writes_a_limit(words: &mut Words) -> bool {
    let writes = words.stop_set(258) == Ok(());
    let is_refused = words.stop_set(3) == Err(258);
    writes & is_refused & (words.stop == 258)
}

/// The number of the chain's cell, where there is a chain.
fn cell_of(found: Option<Chain>) -> Option<u32> {
    match found {
        Some(chain) => Some(chain.cell),
        None => None,
    }
}

fn uses_slots(words: &mut Words) -> bool
    requires sized { SizedWords words.old 2 }
    requires cells { length words.old.owners ≡ 16 }
{
    let root = cell_of(words.slot_take(Slot::Cell(0))) == Some(0);
    let empty = cell_of(words.slot_take(Slot::Cell(0))) == None;
    words.slot_put(Slot::Mail(1), chain(9));
    let mail = cell_of(words.slot_take(Slot::Mail(1))) == Some(9);
    root & empty & mail
}

#[tactic(auto, unfolding(crate::specs::Encodings::out_bytes))]
fn stores_a_byte(words: &mut Words) -> bool
    requires { SizedWords words.old 2 }
{
    words.out_store(1_048_575, 256 + 65);
    words.out_load(1_048_575) == 321
}

#[test]
fn words_and_slots_are_stored_changed_and_taken(rt: HostRuntime) -> Result<(), Fail> {
    let scenes = [
        Scene::Store,
        Scene::Root,
        Scene::State,
        Scene::Request,
        Scene::Limit,
        Scene::Slot,
        Scene::Byte,
    ];
    for scene in scenes {
        assert!(rt; plays(rt.alloc(), scene)?);
    }
    Ok(())
}

/// Words that were not stored are 0.
fn stores_few(words: &mut ZeroedWords) -> bool
    requires { length words.old ≡ 8 }
{
    let first = words.get(7) == 0;
    words.set(1, 10);
    words.set(4, 40);
    words.set(1, 11);
    let stored = (words.get(0) == 0) & (words.get(1) == 11) & (words.get(4) == 40);
    let between = (words.get(3) == 0) & (words.get(5) == 0);
    words.set(7, 70);
    first & stored & between & (words.get(6) == 0) & (words.get(7) == 70)
}

fn is_zeroed(alloc: Global) -> Result<bool, AllocError> {
    let mut words = ZeroedWords::open(alloc, 8)?;
    Ok(stores_few(&mut words))
}

#[test]
fn words_that_were_not_stored_are_zero(rt: HostRuntime) -> Result<(), Fail> {
    assert!(rt; is_zeroed(rt.alloc())?);
    Ok(())
}
