// Calls of the program over files and sinks in memory, and the files that they are given.
use hum_command::{Record, humus_main};
use hum_outside::{Folder, MemFolder, MemSink, NamedFile};
use std::alloc::{AllocError, Global};
use vm_machine::Machine;

// What the events of a machine came to.
#[derive(Clone, Copy)]
pub struct Counts {
    // How many events are finished, and whether they are those of the messages 0, 1, 2 and so on, in that order.
    pub ended: usize,
    pub in_order: bool,
    // How many messages were given a number, and how many of them are pending.
    pub given: u32,
    pub pending: u32,
    // Whether an event created an actor.
    pub created: bool,
    // The quads, events and cycles that the root spent.
    pub spent: Option<[u64; 3]>,
}

// What a call of the program left: nothing, a machine, a run, or what none may leave, both.
#[derive(Clone, Copy)]
pub enum Left {
    Nothing,
    Machine(Counts),
    Run(Counts),
    Both,
}

impl Left {
    pub fn is_nothing(self) -> bool {
        matches!(self, Left::Nothing)
    }

    // What the machine's events came to, where one was left.
    pub fn machine(self) -> Option<Counts> {
        match self {
            Left::Machine(counts) => Some(counts),
            _ => None,
        }
    }

    // What the run's events came to, where one was left.
    pub fn run(self) -> Option<Counts> {
        match self {
            Left::Run(counts) => Some(counts),
            _ => None,
        }
    }
}

// What a call of the program answered and left. The machine itself is no part of it: a test that held one would be dear to prove.
#[derive(Drop)]
pub struct Outcome {
    pub status: u8,
    pub out: MemSink,
    pub err: MemSink,
    pub left: Left,
}

impl Outcome {
    // Whether the call wrote that on out and on err, and ended so.
    pub fn says(&self, out: &[u8], err: &[u8], status: u8) -> bool {
        self.out.bytes() == out && self.err.bytes() == err && self.status == status
    }
}

// Whether the finished events are those of the messages 0, 1, 2 and so on, in that order.
fn is_in_order(machine: &Machine) -> bool {
    for (number, entry) in machine.journal().iter().enumerate() {
        if entry.message as usize != number {
            return false;
        }
    }
    true
}

// The quads, events and cycles that the root spent.
fn spent_by_root(machine: &Machine) -> Option<[u64; 3]> {
    let root = machine.sheet().row(machine.quads(), 0)?;
    Some([root.spent.memory, root.spent.events, root.spent.cycles])
}

fn counts_of(machine: &Machine) -> Counts {
    Counts {
        ended: machine.journal().len(),
        in_order: is_in_order(machine),
        given: machine.queue().given(),
        pending: machine.pending(),
        created: machine.actor_at(3).is_some(),
        spent: spent_by_root(machine),
    }
}

fn left_of(last: &Record) -> Left {
    match (last.run(), last.machine()) {
        (None, None) => Left::Nothing,
        (None, Some(machine)) => Left::Machine(counts_of(machine)),
        (Some(run), None) => Left::Run(counts_of(run.sim().machine())),
        (Some(_), Some(_)) => Left::Both,
    }
}

fn owned(alloc: Global, words: &[&str]) -> Result<Vec<String>, AllocError> {
    let mut owned = Vec::with_capacity(alloc, words.len())?;
    for word in words {
        owned.push(String::from_str(alloc, word)?)?;
    }
    Ok(owned)
}

pub fn named(alloc: Global, name: &str, bytes: &[u8]) -> Result<NamedFile, AllocError> {
    Ok(NamedFile::new(String::from_str(alloc, name)?, bytes.to_vec(alloc)?))
}

// A call of the program with these words over that folder and these sinks.
pub fn call_with<F: Folder>(
    alloc: Global,
    words: &[&str],
    files: &mut F,
    out: MemSink,
    err: MemSink,
) -> Result<Outcome, AllocError> {
    let words = owned(alloc, words)?;
    let (mut out, mut err) = (out, err);
    let mut last = Record::empty();
    let status = humus_main(alloc, &words, files, &mut out, &mut err, &mut last);
    let left = left_of(&last);
    Ok(Outcome {
        status,
        out,
        err,
        left,
    })
}

// The calls of the folder, of out and of err that are listed fail; out and err take a byte a call.
pub fn call_over(
    alloc: Global,
    words: &[&str],
    files: Vec<NamedFile>,
    fails: &[&[u64]; 3],
) -> Result<Outcome, AllocError> {
    let mut files = MemFolder::new(files, fails[0].to_vec(alloc)?);
    let out = MemSink::with_room(alloc, 50_000, 1, fails[1].to_vec(alloc)?)?;
    let err = MemSink::with_room(alloc, 200, 1, fails[2].to_vec(alloc)?)?;
    call_with(alloc, words, &mut files, out, err)
}

pub const BOOT: &[u8] = b".export boot\nboot:\nend commit\n";

// The image of one instruction, `end commit`, has these bytes.
pub const IMAGE: [u8; 28] = [
    0x55, 0x46, 0x51, 0x31, 1, 0, 0, 0, 16, 0, 0, 0, //
    9, 0, 0, 0, 0x15, 0, 0, 0x80, 1, 0, 0, 0x80, 0, 0, 0, 0,
];

// The words `exec m.asm` with these keys, over that text.
pub fn exec_over(
    alloc: Global,
    keys: &[&str],
    text: &[u8],
    fails: &[&[u64]; 3],
) -> Result<Outcome, AllocError> {
    let mut words = vec![in alloc; "exec", "m.asm"]?;
    words.extend_from_slice(keys)?;
    let file = named(alloc, "m.asm", text)?;
    call_over(alloc, &words, vec![in alloc; file]?, fails)
}

// The words `run f.hum` with these keys, over that text. The calls of the folder, of out and of err that are listed fail.
pub fn run_over(
    alloc: Global,
    keys: &[&str],
    text: &[u8],
    fails: &[&[u64]; 3],
) -> Result<Outcome, AllocError> {
    let mut words = vec![in alloc; "run", "f.hum"]?;
    words.extend_from_slice(keys)?;
    let file = named(alloc, "f.hum", text)?;
    call_over(alloc, &words, vec![in alloc; file]?, fails)
}
