// Operations on cells.

ghost use Rattle.std.specs.Prelude.{◌≡◌, ◌+◌, ◌-◌, ◌≤◌, suc, IsTrue};
ghost use Rattle.cap_words.specs.Store.{used};
ghost use Rattle.cap_words.specs.Seen.{seen, cell_seen};
ghost use Rattle.instr_table.specs.Lists.{item, parted, field_in, fields_in};
ghost use Rattle.instr_table.specs.Outcome.{goes, gives};
ghost use Rattle.instr_table.specs.Row.{listed, item_of, quad_row};
ghost use Rattle.instr_table.specs.Spelling.{is_op};
ghost use Rattle.vm_dict.specs.Made.{Takes};
ghost use Rattle.vm_step.specs.declared.group.Group.TheVariants.{Cells};
ghost use Rattle.vm_step.specs.Stack.{IsStack};
ghost use Rattle.vm_step.specs.Groups.{group_of};
ghost use Rattle.vm_step.specs.Moves.{Ready, Moves, Turns, restacking, plain_row, values_of, values_in};

use crate::lane::{Lane, Stack, StepEnd};
use crate::pairs::{head, nth, tail};
use crate::taking::{cell, size, take, take_pair};
use crate::types::is_makeable;
use cap_words::{Quad, Word};
use instr_table::Op;
use quad_memory::Quads;

// Does what the row of such an operation says.
pub(crate) fn on_cells(quads: &mut Quads, lane: &mut Lane, op: &Op, next: Word) -> StepEnd
    requires in_row { IsTrue (is_op op.now) }
    requires group { group_of op.now ≡ Cells }
    requires ready { Ready quads.old lane.old (plain_row quads.old lane.old op.now next).charge.quads }
    ensures { Turns quads.old quads.new lane.old lane.new (plain_row quads.old lane.old op.now next).outcome result }
{
    let top = lane.at(quads, 1);
    match op {
        Op::Pair(n) => pair(quads, lane, size(n), next),
        Op::Part(n) => part(quads, lane, size(n), next),
        Op::Nth(n) => {
            let value = nth(quads, n, top);
            lane.gives(quads, 1, value, next)
        }
        Op::QuadMake(n) => make_quad(quads, lane, size(n), next),
        Op::QuadTake(n) => take_quad(quads, lane, size(n), next),
        Op::Get(n) => {
            let value = field(&cell(quads, top), size(n));
            lane.gives(quads, 1, value, next)
        }
        _ => unreachable!(),
    }
}

// Makes a list of the top n items, with the one below them as its tail.
fn pair(quads: &mut Quads, lane: &mut Lane, n: u32, next: Word) -> StepEnd
    requires few { n ≤ 15 }
    requires ready { Ready quads.old lane.old (n + 1) }
    ensures { Turns quads.old quads.new lane.old lane.new (gives (suc n) (listed n (seen quads.old.store) (values_of quads.old lane.old)) next).outcome result }
{
    let list = pair_up(quads, &lane.items(), n);
    lane.gives(quads, n + 1, list, next)
}

// Takes the cells of that list and gives its word.
fn pair_up(quads: &mut Quads, from: &Stack, n: u32) -> Word
    requires few { n ≤ 15 }
    requires from { IsStack (seen quads.old.store) from.now.depth from.now.word }
    requires room { used quads.old.store + n ≤ quads.old.room }
    ensures cells { Takes quads.old quads.new (listed n (seen quads.old.store) (values_in (seen quads.old.store) from.now)).cells }
    ensures word { result ≡ (listed n (seen quads.old.store) (values_in (seen quads.old.store) from.now)).word }
{
    let mut list = from.at(quads, n + 1);
    for k in 0..n {
        let value = from.at(quads, n - k);
        list = take_pair(quads, value, list);
    }
    list
}

// Puts the tail after n items of a list on the stack, and then the n-th to the first.
fn part(quads: &mut Quads, lane: &mut Lane, n: u32, next: Word) -> StepEnd
    requires few { n ≤ 15 }
    requires ready { Ready quads.old lane.old (n + 1) }
    ensures { Turns quads.old quads.new lane.old lane.new (goes 1 (parted (seen quads.old.store) n (item (values_of quads.old lane.old) 1)) next).outcome result }
{
    let list = lane.at(quads, 1);
    lane.advance(quads, 1, next);
    push_parts(quads, lane, n, list);
    StepEnd::Going
}

// Reads each item before any is pushed.
fn push_parts(quads: &mut Quads, lane: &mut Lane, n: u32, list: Word)
    requires ready { Ready quads.old lane.old (n + 1) }
    ensures { Moves quads.old quads.new lane.old lane.new (restacking 0 (parted (seen quads.old.store) n list) lane.old.code) }
{
    if n == 0 {
        lane.push(quads, list);
    } else {
        let value = head(quads, list);
        let rest = tail(quads, list);
        push_parts(quads, lane, n - 1, rest);
        lane.push(quads, value);
    }
}

// Makes a cell of n words, of the type on top; `#?` where `quad` makes no cells of it.
fn make_quad(quads: &mut Quads, lane: &mut Lane, n: u32, next: Word) -> StepEnd
    requires { Ready quads.old lane.old 2 }
    ensures { Turns quads.old quads.new lane.old lane.new (quad_row n (seen quads.old.store) (values_of quads.old lane.old) next).outcome result }
{
    let t = lane.at(quads, 1);
    if !is_makeable(quads, t) {
        return lane.gives(quads, n, Word::UNDEF, next);
    }
    let q = Quad {
        t,
        x: item_of(quads, lane, n, 2),
        y: item_of(quads, lane, n, 3),
        z: item_of(quads, lane, n, 4),
    };
    let made = take(quads, &q);
    lane.gives(quads, n, made, next)
}

// The k-th item where it is one of the first n, and else `#?`.
fn item_of(quads: &Quads, lane: &Lane, n: u32, k: u32) -> Word
    requires stacked { IsStack (seen quads.now.store) lane.now.depth lane.now.stack }
    requires place { 1 ≤ k }
    ensures { result ≡ item_of n (values_of quads.now lane.now) k }
{
    if k <= n {
        lane.at(quads, k)
    } else {
        Word::UNDEF
    }
}

// Puts the first n words of a cell on the stack, the last first.
fn take_quad(quads: &mut Quads, lane: &mut Lane, n: u32, next: Word) -> StepEnd
    requires few { n ≤ 4 }
    requires ready { Ready quads.old lane.old n }
    ensures { Turns quads.old quads.new lane.old lane.new (goes 1 (fields_in (cell_seen (seen quads.old.store) (item (values_of quads.old lane.old) 1)) n) next).outcome result }
{
    let q = cell(quads, lane.at(quads, 1));
    lane.advance(quads, 1, next);
    push_fields(quads, lane, &q, n);
    StepEnd::Going
}

fn push_fields(quads: &mut Quads, lane: &mut Lane, q: &Option<Quad>, n: u32)
    requires few { n ≤ 4 }
    requires ready { Ready quads.old lane.old n }
    ensures { Moves quads.old quads.new lane.old lane.new (restacking 0 (fields_in q.now n) lane.old.code) }
{
    for k in 0..n {
        lane.push(quads, field(q, n - 1 - k));
    }
}

// The word of that number in a cell, `#?` where there is no cell.
fn field(q: &Option<Quad>, n: u32) -> Word
    ensures { result ≡ field_in q.now n }
{
    match q {
        Some(q) => match n {
            0 => q.t,
            1 => q.x,
            2 => q.y,
            3 => q.z,
            _ => Word::UNDEF,
        },
        None => Word::UNDEF,
    }
}
