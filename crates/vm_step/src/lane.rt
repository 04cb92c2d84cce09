// Events in flight.

ghost use Rattle.std.specs.Prelude.{◌≡◌, ◌≤◌, [], ◌∷◌, drop};
ghost use Rattle.cap_words.specs.Seen.{seen};
ghost use Rattle.instr_table.specs.Lists.{item};
ghost use Rattle.instr_table.specs.Outcome.{goes};
ghost use Rattle.vm_step.specs.Stack.{items_from, IsStack};

use crate::taking::{cell, take_pair};
use cap_words::Word;
use instr_table::Quota;
use quad_memory::Quads;
use vm_effects::Effects;

/// How an instruction ends.
#[derive(Clone, Copy, PartialEq, Eq)]
pub enum StepEnd {
    /// The event goes on.
    Going,
    /// The event is to commit.
    Commit,
    /// The event failed, with this reason.
    Abort(Word),
    /// The event's sponsor held too little of this kind, and nothing was done.
    RanOut(Quota),
}

/// An event in flight.
#[derive(Clone, Copy)]
pub struct Lane {
    /// The number of its message.
    pub number: u32,
    /// Its event, where its sponsor, its target and its message stand.
    pub event: Word,
    /// The next instruction.
    pub code: Word,
    /// The top cell of its stack, `#nil` where it is empty. The stack is a list of pairs.
    pub stack: Word,
    /// How many items the stack has.
    pub depth: u32,
    pub effects: Effects,
}

// A stack by itself: its top cell, and how many items it has.
#[derive(Drop)]
pub(crate) struct Stack {
    pub word: Word,
    pub depth: u32,
}

impl Stack {
    ghost use Rattle.vm_step.specs.Moves.{values_in};

    // Takes the top value off, `#?` where there is none.
    pub(crate) fn pop(&mut self, quads: &Quads) -> Word
        requires { IsStack (seen quads.now.store) self.old.depth self.old.word }
        ensures value { result ≡ item (values_in (seen quads.now.store) self.old) 1 }
        ensures rest { items_from (seen quads.now.store) self.new.depth self.new.word ≡ drop 1 (items_from (seen quads.now.store) self.old.depth self.old.word) }
        ensures stacked { IsStack (seen quads.now.store) self.new.depth self.new.word }
        ensures depth { self.new.depth ≤ self.old.depth }
    {
        if self.depth == 0 {
            return Word::UNDEF;
        }
        match cell(quads, self.word) {
            Some(q) => {
                self.word = q.y;
                self.depth -= 1;
                q.x
            }
            None => unreachable!(),
        }
    }

    // Takes the top values off.
    pub(crate) fn skip(&mut self, quads: &Quads, n: u32)
        requires { IsStack (seen quads.now.store) self.old.depth self.old.word }
        ensures rest { items_from (seen quads.now.store) self.new.depth self.new.word ≡ drop n (items_from (seen quads.now.store) self.old.depth self.old.word) }
        ensures stacked { IsStack (seen quads.now.store) self.new.depth self.new.word }
        ensures depth { self.new.depth ≤ self.old.depth }
    {
        for i in 0..n {
            let _turn = i;
            let _value = self.pop(quads);
        }
    }

    // The value at that place, 1 being the top, `#?` where there is none.
    pub(crate) fn at(&self, quads: &Quads, n: u32) -> Word
        requires stacked { IsStack (seen quads.now.store) self.now.depth self.now.word }
        requires place { 1 ≤ n }
        ensures { result ≡ item (values_in (seen quads.now.store) self.now) n }
    {
        let mut rest = Stack {
            word: self.word,
            depth: self.depth,
        };
        rest.skip(quads, n - 1);
        rest.pop(quads)
    }
}

impl Lane {
    ghost use Rattle.vm_step.specs.Flight.{stack_of};
    ghost use Rattle.vm_step.specs.Moves.{Ready, Moves, Turns, restacking, values_of};

    // The stack by itself.
    pub(crate) fn items(&self) -> Stack
        ensures { result ≡ record { word = self.now.stack; depth = self.now.depth } }
    {
        Stack {
            word: self.stack,
            depth: self.depth,
        }
    }

    // The value at that place, 1 being the top, `#?` where there is none.
    pub(crate) fn at(&self, quads: &Quads, n: u32) -> Word
        requires stacked { IsStack (seen quads.now.store) self.now.depth self.now.stack }
        requires place { 1 ≤ n }
        ensures { result ≡ item (values_of quads.now self.now) n }
    {
        self.items().at(quads, n)
    }

    // Takes values off and goes on at `next`.
    pub(crate) fn advance(&mut self, quads: &Quads, pops: u32, next: Word)
        requires { Ready quads.now self.old 0 }
        ensures { Moves quads.now quads.now self.old self.new (restacking pops [] next) }
    {
        let mut rest = self.items();
        rest.skip(quads, pops);
        self.stack = rest.word;
        self.depth = rest.depth;
        self.code = next;
    }

    // Puts a value on the stack.
    pub(crate) fn push(&mut self, quads: &mut Quads, value: Word)
        requires { Ready quads.old self.old 1 }
        ensures { Moves quads.old quads.new self.old self.new (restacking 0 (value ∷ []) self.old.code) }
    {
        let _room = quads.room();
        self.stack = take_pair(quads, value, self.stack);
        self.depth += 1;
    }

    // Takes values off and goes on.
    pub(crate) fn goes(&mut self, quads: &Quads, pops: u32, next: Word) -> StepEnd
        requires { Ready quads.now self.old 0 }
        ensures { Turns quads.now quads.now self.old self.new (goes pops [] next).outcome result }
    {
        self.advance(quads, pops, next);
        StepEnd::Going
    }

    // Takes values off, puts one on, and goes on.
    pub(crate) fn gives(&mut self, quads: &mut Quads, pops: u32, value: Word, next: Word) -> StepEnd
        requires { Ready quads.old self.old 1 }
        ensures { Turns quads.old quads.new self.old self.new (goes pops (value ∷ []) next).outcome result }
    {
        self.advance(quads, pops, next);
        self.push(quads, value);
        StepEnd::Going
    }
}
