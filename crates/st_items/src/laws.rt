//! Laws of laid out code that name no context: each is the contract of a function with an empty body. Those over contexts are lemmas; the
//! crate's head names them.
ghost use Rattle.st_items.specs.Laws.{CodesFit, CodeOfItems, ItemsLieLow, ItemsFollow, NoEntries, ImagesTell, RowsFound, CallsJump, GotosJump, EntriesJump, ForksJump, BranchesGo, ThirdsEnd, StretchesLead, CopiesLead, CopiesRead, FramesFound, FramesAlone, WritesHidden};

/// What is accepted and has its size has at most 196,608 words of code, in either layout.
pub fn codes_fit()
    ensures { CodesFit }
{}

/// At each word of an item stands its instruction.
pub fn code_of_items()
    ensures { CodeOfItems }
{}

/// Items lie from 0x10000 on, within 196,608 words.
pub fn items_lie_low()
    ensures { ItemsLieLow }
{}

/// The next item begins behind an item's last word.
pub fn items_follow()
    ensures { ItemsFollow }
{}

/// No word of code is an entry of the runtime.
pub fn no_entries()
    ensures { NoEntries }
{}

/// An image tells of each word of an item whether it begins the item, and its line; and of a fork the register of its handle.
pub fn images_tell()
    ensures { ImagesTell }
{}

/// The rows of a program ascend, and a function's is found by each address of its code.
pub fn rows_found()
    ensures { RowsFound }
{}

/// A call jumps to its function.
pub fn calls_jump()
    ensures { CallsJump }
{}

/// A jump goes to its item.
pub fn gotos_jump()
    ensures { GotosJump }
{}

/// An item that calls an entry jumps there.
pub fn entries_jump()
    ensures { EntriesJump }
{}

/// A fork is three jumps: to the entry that begins it, to its function, and to the entry that ends the child.
pub fn forks_jump()
    ensures { ForksJump }
{}

/// A branch that is taken goes to its item.
pub fn branches_go()
    ensures { BranchesGo }
{}

/// Where a fork's call comes back to stands its third jump.
pub fn thirds_end()
    ensures { ThirdsEnd }
{}

/// A stretch of an item's words that is run from its first leads to where its run ends, by words at which no item begins.
pub fn stretches_lead()
    ensures { StretchesLead }
{}

/// A pure copy leads from a frame to its caller: to its place, with its base and the registers that a call keeps; no word is changed.
pub fn copies_lead()
    ensures { CopiesLead }
{}

/// At each word of a pure copy stands an instruction that adds, loads or returns.
pub fn copies_read()
    ensures { CopiesRead }
{}

/// What a prologue stores is found again.
pub fn frames_found()
    ensures { FramesFound }
{}

/// A prologue changes no word outside of its frame.
pub fn frames_alone()
    ensures { FramesAlone }
{}

/// Callers see no write of a register that the function may write.
pub fn writes_hidden()
    ensures { WritesHidden }
{}
