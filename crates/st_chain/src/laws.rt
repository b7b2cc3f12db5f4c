//! Laws of threads in memory: each is the contract of a function with an empty body.
ghost use Rattle.st_chain.specs.Taking.{TakesFew, KeepsFrameLaw};
ghost use Rattle.st_chain.specs.Laws.{StandsSame, LowerSame, OlderUnseen, ThreadCut, CopiesGive, Restarts, RestartStands};

/// Of a lone thread only the words of its frames, the registers that a call keeps and its names are read.
pub fn stands_same()
    ensures { StandsSame }
{}

/// So it is with the threads below one another.
pub fn lower_same()
    ensures { LowerSame }
{}

/// What is older than an activation sees no word of a frame that is apart from all others.
pub fn older_unseen()
    ensures { OlderUnseen }
{}

/// A thread whose oldest frame returns to the entry st_end is read as before, and nothing lies below it.
pub fn thread_cut()
    ensures { ThreadCut }
{}

/// A pure copy gives the older activation of a thread, or what lies below it.
pub fn copies_give()
    ensures { CopiesGive }
{}

/// A chain that goes on has its place, its frame pointer and its registers on the machine, and the other registers are as they were.
pub fn restarts()
    ensures { Restarts }
{}

/// A machine that goes on with a chain stands for the chain's thread.
pub fn restart_stands()
    ensures { RestartStands }
{}

/// Suspending the top thread takes at most 20 steps for each of its frames and 8 more, and giving the bottom one as many for each frame of all
/// threads.
pub fn takes_few()
    ensures { TakesFew }
{}

/// A taking keeps the law of frames on its stack: what it exports is the worker's, and what the worker has no more is exported.
pub fn taking_keeps_law()
    ensures { KeepsFrameLaw }
{}
