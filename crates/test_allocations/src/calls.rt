//! Calls that may be refused for want of memory, one by one and as tables, and the first thing of them that is wrong.

use packet_core::Packet;
use sched_core::Refusal;

/// What became of a call.
#[derive(Clone, Copy)]
pub(crate) enum Answer {
    /// It was answered as it has to be.
    Right,
    /// It was answered otherwise.
    Wrong,
    /// It was refused for want of memory.
    Refused,
}

impl Answer {
    /// Right where it is as it has to be.
    pub(crate) fn of(is: bool) -> Answer {
        if is { Answer::Right } else { Answer::Wrong }
    }

    /// Whether it is right.
    pub(crate) fn is_right(self) -> bool {
        match self {
            Answer::Right => true,
            Answer::Wrong | Answer::Refused => false,
        }
    }
}

/// Whether memory may be refused to a call, and what is compared then.
#[derive(Clone, Copy)]
pub(crate) enum Memory {
    /// It may. All that can be read is then as before, and the same call with ample memory is answered.
    Takes,
    /// It may. All that can be read is then as before, and the call isn't made again.
    TakesOnce,
    /// The call takes none.
    EnqueueRooms,
    /// The call takes none, and all that can be read is as before.
    Keeps,
}

/// A call of a table, whether it takes memory, and its name where it isn't answered as it has to be.
pub(crate) type Row<'a, C> = (Memory, C, &'a str);

/// What the calls of a table are made with.
pub(crate) trait Subject {
    /// A call, and what it is answered.
    type Call: Copy;

    /// All that can be read.
    type Picture: PartialEq + Drop;

    /// All that can be read now. It takes no memory.
    fn picture(&mut self) -> Self::Picture;

    /// Makes a call, with that packet where it wants one.
    fn answer(&mut self, call: Self::Call, packet: Packet) -> Answer;
}

/// The calls of a sequence: how many of them were refused for want of memory, and the first thing that is wrong.
#[derive(Drop)]
pub(crate) struct Calls<'a> {
    refused: u32,
    wrong: Option<&'a str>,
}

impl<'a> Calls<'a> {
    /// None was refused yet, and nothing is wrong.
    pub(crate) fn new() -> Calls<'a> {
        Calls {
            refused: 0,
            wrong: None,
        }
    }

    /// How many were refused.
    pub(crate) fn refused(&self) -> u32 {
        self.refused
    }

    /// The first thing that is wrong.
    pub(crate) fn wrong(&self) -> Option<&'a str> {
        self.wrong
    }

    /// One more was refused.
    pub(crate) fn note(&mut self) {
        self.refused = self.refused.saturating_add(1);
    }

    /// That has to be. Where it isn't, what has that name is wrong.
    pub(crate) fn wanted(&mut self, is: bool, name: &'a str) {
        if !is && self.wrong.is_none() {
            self.wrong = Some(name);
        }
    }

    /// Whether a call was refused for want of memory, so that it has to be made once more.
    pub(crate) fn is_refused(&mut self, answer: Answer) -> bool {
        match answer {
            Answer::Refused => {
                self.note();
                true
            }
            Answer::Right | Answer::Wrong => false,
        }
    }

    /// Makes the calls of a table in turn.
    pub(crate) fn makes<S: Subject>(
        &mut self,
        subject: &mut S,
        packet: Packet,
        rows: &[Row<'a, S::Call>],
    ) {
        for (memory, call, name) in rows {
            self.makes_one(subject, packet, *memory, *call, name);
        }
    }

    /// Makes a call of a table.
    fn makes_one<S: Subject>(
        &mut self,
        subject: &mut S,
        packet: Packet,
        memory: Memory,
        call: S::Call,
        name: &'a str,
    ) {
        let before = subject.picture();
        match (memory, subject.answer(call, packet)) {
            (Memory::Takes, Answer::Refused) => {
                self.note();
                self.wanted(subject.picture() == before, name);
                self.wanted(subject.answer(call, packet).is_right(), name);
            }
            (Memory::TakesOnce, Answer::Refused) => {
                self.note();
                self.wanted(subject.picture() == before, name);
            }
            (Memory::Keeps, Answer::Right) => self.wanted(subject.picture() == before, name),
            (_, answer) => self.wanted(answer.is_right(), name),
        }
    }
}

/// Whether the answer to a step is the one that is wanted, where memory wasn't refused.
pub(crate) fn compared<T: PartialEq + Drop>(
    answer: Result<T, Refusal>,
    wanted: Result<T, Refusal>,
) -> Answer {
    match answer {
        Err(Refusal::Memory) => Answer::Refused,
        answer => Answer::of(answer == wanted),
    }
}
