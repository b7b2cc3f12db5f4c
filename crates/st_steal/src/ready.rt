//! The numbers of ready threads.
ghost use Rattle.std.specs.Prelude.{◌≡◌, ◌+◌, ◌<◌, ◌≤◌, ◌++◌, ◌∷◌, [], length, drop, IfOk, vec_capacity};
ghost use Rattle.st_steal.specs.Ready.{IsPopped};

use std::alloc::{AllocError, Global};
use std::marker::Model;

/// Numbers that leave in the order in which they came. There is room for a fixed count of them, and each call but `open` takes constant time on
/// average and no memory. Contracts see the list of the numbers, the oldest first, and the room.
#[derive(Drop)]
pub struct ReadyList {
    /// Those from `head` on are there; the others have left. It has room for twice as many as the list.
    numbers: Vec<u32>,
    head: usize,
    room: u32,
}

impl Model for ReadyList {
    ghost use Rattle.std.specs.Prelude.{drop, vec_capacity};
    ghost use Rattle.st_steal.specs.Ready.{Ready, HasRoom};

    ghost Value = { Ready };

    ghost view = { λ l. record { numbers = drop l.head l.numbers.items; room = l.room } };

    ghost invariant = { λ l. HasRoom l.numbers.items l.head l.room (vec_capacity l.numbers) };
}

impl ReadyList {
    /// An empty list with room for `cells` numbers. It takes the memory for them.
    pub fn open(alloc: Global, cells: u32) -> Result<ReadyList, AllocError>
        ensures none { IfOk result (λ list. list.numbers ≡ []) }
        ensures room { IfOk result (λ list. list.room ≡ cells) }
    {
        let numbers = Vec::with_capacity(alloc, 2 * cells as usize)?;
        Ok(ReadyList {
            numbers,
            head: 0,
            room: cells,
        })
    }

    /// Puts a number behind the others.
    pub fn push(&mut self, cell: u32)
        requires { length self.old.numbers < self.old.room }
        ensures numbers { self.new.numbers ≡ self.old.numbers ++ cell ∷ [] }
        ensures room { self.new.room ≡ self.old.room }
    {
        self.head = with_place(&mut self.numbers, self.head, 2 * self.room as usize);
        self.numbers.push_reserved(cell);
    }

    /// Takes the number out that came first; `None` exactly where there is none, and nothing changes then.
    pub fn pop(&mut self) -> Option<u32>
        ensures popped { IsPopped self.old.numbers result self.new.numbers }
        ensures room { self.new.room ≡ self.old.room }
    {
        let first = self.numbers.get(self.head).copied()?;
        self.head += 1;
        Some(first)
    }
}

/// Makes a place behind the numbers from `head` on, fewer than `most`, where the vector has at least that many, and answers where they begin then:
/// they are moved to the front. At least as many have left since they were there last as are moved.
fn with_place(numbers: &mut Vec<u32>, head: usize, most: usize) -> usize
    requires within { head ≤ length numbers.old.items }
    requires few { length numbers.old.items < head + most }
    ensures kept { drop result numbers.new.items ≡ drop head numbers.old.items }
    ensures within { result ≤ length numbers.new.items }
    ensures place { length numbers.new.items < most }
    ensures capacity { vec_capacity numbers.new ≡ vec_capacity numbers.old }
{
    let len = numbers.len();
    if len < most {
        return head;
    }
    numbers.copy_within(head.., 0);
    numbers.truncate(len - head);
    0
}
