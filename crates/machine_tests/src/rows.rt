// Machines of worked modules: how their turns are answered, and what is left then.
use crate::modules::ONE_LANE;
use crate::rows::Answer::{Committed, Dispatched, Failed, RanOut, Rest, Spent, Stepped};
use vm_machine::Lanes;

// What a turn is to answer. `RanOut` and `Spent` are of cycles, and `Spent` is of the root.
#[derive(Clone, Copy)]
pub enum Answer {
    Dispatched,
    Stepped,
    Committed(u32),
    Failed(u32, i32),
    RanOut(u32),
    Rest,
    Spent,
}

// A machine of a module, how its turns are answered one after another, and what is left then.
#[derive(Clone, Copy)]
pub struct Row {
    pub name: &'static str,
    pub text: &'static str,
    pub grant: [u32; 3],
    pub lanes: Lanes,
    pub turns: &'static [(u32, Answer)],
    pub written: &'static str,
    pub journal: &'static [Answer],
    // The message that is in flight.
    pub in_flight: Option<u32>,
    pub is_spent: bool,
    // How many turns were taken, messages were given, messages are pending and quads are used.
    pub counts: [u64; 4],
    // The number of each actor's quad.
    pub roll: &'static [u8],
    // What each sponsor received, passed on, spent and holds: quads, events and cycles.
    pub sponsors: &'static [[[u64; 3]; 4]],
}

const ENDS: &str = ".export boot
boot:
 end commit
";

const PAIR: &str = ".export boot
boot:
 pair_t #nil #nil
";

// Message 0 starts a sponsor with 1,000 quads and 50 cycles, whose signal is for `println`, and sends an actor of it a message on which it
// spins. The first actor then hands message 1's end on.
const SPIN: &str = ".export boot
boot:
 sponsor new
 push 1000
 sponsor memory
 push 50
 sponsor cycles
 dup 1
 my self
 sponsor start
 push 0
 roll -2
 push #nil
 push spin
 actor create
 roll 2
 actor post
 my state
 push ctl
 actor become
 end commit
ctl:
 msg 0
 state 1
 actor send
 end commit
spin:
 debug
 ref spin
";

// Sends `println` the first word of the cell that 5 would name.
const GETS: &str = ".export boot
boot:
 push 5
 get 0
 state 1
 actor send
 end commit
";

// Sends `println` a cell of an actor's type.
const MAKES: &str = ".export boot
boot:
 push 5
 push #actor_t
 quad 2
 state 1
 actor send
 end commit
";

// Creates an actor with the code of `println`, and sends it 7.
const FORGES: &str = ".export boot
boot:
 push 7
 push #nil
 push 0
 actor create
 actor send
 end commit
";

const CREATES: &str = ".export boot
boot:
 push #nil
 push boot
 actor create
 end commit
";

// Sends a message, and fails with 9.
const ABORTS: &str = ".export boot
boot:
 push 1
 my self
 actor send
 push 9
 end abort
";

// Starts a sponsor, stops it, and sends a message under it.
const STOPS: &str = ".export boot
boot:
 sponsor new
 dup 1
 my self
 sponsor start
 sponsor stop
 state 1
 roll -2
 actor post
 end commit
";

// Grants a sponsor 200 quads and 30 events, and takes them back.
const RECLAIMS: &str = ".export boot
boot:
 sponsor new
 push 200
 sponsor memory
 push 30
 sponsor events
 sponsor reclaim
 end commit
";

// Message 0 creates two actors, with `println` as their state, and sends them 7 and 8, which each sends on.
pub const WORKERS: &str = ".export boot
boot:
 state 1
 push worker
 actor create
 push 7
 roll 2
 actor send
 state 1
 push worker
 actor create
 push 8
 roll 2
 actor send
 end commit
worker:
 msg 0
 my state
 actor send
 end commit
";

const MANY_LANES: Lanes = Lanes { count: 64, seed: 1 };

const NONE: [u64; 3] = [0; 3];

// What most rows have.
const PLAIN: Row = Row {
    name: "",
    text: ENDS,
    grant: [1000, 100, 100],
    lanes: ONE_LANE,
    turns: &[],
    written: "",
    journal: &[],
    in_flight: None,
    is_spent: false,
    counts: [0; 4],
    roll: &[6, 2, 3],
    sponsors: &[],
};

pub const ROWS: [Row; 13] = [
    Row {
        name: "one instruction commits",
        grant: [1000, 100, 10],
        turns: &[(1, Dispatched), (1, Committed(0)), (1, Rest)],
        journal: &[Committed(0)],
        counts: [2, 1, 0, 8],
        sponsors: &[[[1000, 100, 10], NONE, [0, 0, 1], [1000, 100, 9]]],
        ..PLAIN
    },
    Row {
        name: "a root without cycles runs out once",
        grant: [1000, 100, 0],
        turns: &[(1, Dispatched), (2, Spent)],
        journal: &[RanOut(0)],
        is_spent: true,
        counts: [2, 1, 0, 8],
        sponsors: &[[[1000, 100, 0], NONE, NONE, [1000, 100, 0]]],
        ..PLAIN
    },
    Row {
        name: "a pair is no instruction",
        text: PAIR,
        grant: [1000, 100, 10],
        turns: &[(1, Dispatched), (1, Failed(0, 16)), (1, Rest)],
        journal: &[Failed(0, 16)],
        counts: [2, 1, 0, 8],
        sponsors: &[[[1000, 100, 10], NONE, [0, 0, 1], [1000, 100, 9]]],
        ..PLAIN
    },
    // Message 0 takes 19 instructions, message 1 all 50 of its sponsor's, message 2, which is the signal, 4, and message 3 goes to
    // `println`.
    Row {
        name: "a sponsor runs out and its signal is told",
        text: SPIN,
        grant: [1_048_576, 65_536, 16_777_216],
        turns: &[
            (1, Dispatched),
            (18, Stepped),
            (1, Committed(0)),
            (1, Dispatched),
            (50, Stepped),
            (1, RanOut(1)),
            (1, Dispatched),
            (3, Stepped),
            (1, Committed(2)),
            (1, Committed(3)),
            (2, Rest),
        ],
        written: "3\n",
        journal: &[Committed(0), RanOut(1), Committed(2), Committed(3)],
        counts: [78, 4, 0, 31],
        roll: &[6, 2, 3, 21],
        sponsors: &[
            [
                [1_048_576, 65_536, 16_777_216],
                [1000, 0, 50],
                [23, 3, 23],
                [1_047_553, 65_533, 16_777_143],
            ],
            [[1000, 0, 50], NONE, [0, 0, 50], [1000, 0, 0]],
        ],
        ..PLAIN
    },
    Row {
        name: "no number names a cell",
        text: GETS,
        turns: &[
            (1, Dispatched),
            (4, Stepped),
            (1, Committed(0)),
            (1, Committed(1)),
            (13, Rest),
        ],
        written: "?\n",
        journal: &[Committed(0), Committed(1)],
        counts: [7, 2, 0, 12],
        sponsors: &[[[1000, 100, 100], NONE, [4, 1, 5], [996, 99, 95]]],
        ..PLAIN
    },
    Row {
        name: "no actor is made out of a number",
        text: MAKES,
        turns: &[
            (1, Dispatched),
            (5, Stepped),
            (1, Committed(0)),
            (1, Committed(1)),
            (12, Rest),
        ],
        written: "?\n",
        journal: &[Committed(0), Committed(1)],
        // The second quad that `quad 2` costs is not used.
        counts: [8, 2, 0, 13],
        sponsors: &[[[1000, 100, 100], NONE, [6, 1, 6], [994, 99, 94]]],
        ..PLAIN
    },
    Row {
        name: "a device is known by its cell",
        text: FORGES,
        turns: &[
            (1, Dispatched),
            (5, Stepped),
            (1, Committed(0)),
            (1, Dispatched),
            (1, Failed(1, 16)),
            (11, Rest),
        ],
        journal: &[Committed(0), Failed(1, 16)],
        counts: [9, 2, 0, 14],
        roll: &[6, 2, 3, 11],
        sponsors: &[[[1000, 100, 100], NONE, [6, 1, 7], [994, 99, 93]]],
        ..PLAIN
    },
    Row {
        name: "what was created is dropped",
        text: CREATES,
        grant: [1000, 100, 3],
        turns: &[(1, Dispatched), (3, Stepped), (16, Spent)],
        journal: &[RanOut(0)],
        is_spent: true,
        counts: [5, 1, 0, 12],
        sponsors: &[[[1000, 100, 3], NONE, [4, 0, 3], [996, 100, 0]]],
        ..PLAIN
    },
    Row {
        name: "what was sent is dropped",
        text: ABORTS,
        turns: &[(1, Dispatched), (4, Stepped), (1, Failed(0, 9)), (14, Rest)],
        journal: &[Failed(0, 9)],
        counts: [6, 1, 0, 12],
        sponsors: &[[[1000, 100, 100], NONE, [4, 1, 5], [996, 99, 95]]],
        ..PLAIN
    },
    Row {
        name: "a sponsor is stopped and its signal dropped",
        text: STOPS,
        turns: &[(1, Dispatched), (8, Stepped), (1, Committed(0)), (10, Rest)],
        journal: &[Committed(0)],
        counts: [10, 2, 1, 18],
        sponsors: &[
            [[1000, 100, 100], NONE, [10, 2, 9], [990, 98, 91]],
            [NONE; 4],
        ],
        ..PLAIN
    },
    Row {
        name: "what a sponsor holds is reclaimed",
        text: RECLAIMS,
        turns: &[(1, Dispatched), (6, Stepped), (1, Committed(0)), (12, Rest)],
        journal: &[Committed(0)],
        counts: [8, 1, 0, 13],
        sponsors: &[
            [[1200, 130, 100], [200, 30, 0], [5, 0, 7], [995, 100, 93]],
            [[200, 30, 0], [200, 30, 0], NONE, NONE],
        ],
        ..PLAIN
    },
    Row {
        name: "a root that holds no cycles has not run out",
        text: WORKERS,
        grant: [100, 10, 3],
        lanes: MANY_LANES,
        turns: &[(1, Dispatched), (3, Stepped)],
        in_flight: Some(0),
        counts: [4, 1, 1, 12],
        sponsors: &[[[100, 10, 3], NONE, [4, 0, 3], [96, 10, 0]]],
        ..PLAIN
    },
    Row {
        name: "a root that ran out stays so",
        text: WORKERS,
        grant: [100, 10, 3],
        lanes: MANY_LANES,
        turns: &[(1, Dispatched), (3, Stepped), (2, Spent)],
        journal: &[RanOut(0)],
        is_spent: true,
        counts: [5, 1, 0, 12],
        sponsors: &[[[100, 10, 3], NONE, [4, 0, 3], [96, 10, 0]]],
        ..PLAIN
    },
];
