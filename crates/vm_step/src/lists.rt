// Operations on dictionaries and deques.

ghost use Rattle.std.specs.Prelude.{◌≡◌, IsTrue, unwrap_or};
ghost use Rattle.cap_words.specs.Words.{undef, nil};
ghost use Rattle.cap_words.specs.Seen.{seen};
ghost use Rattle.instr_table.specs.Lists.{next_quad, item, one_cell};
ghost use Rattle.instr_table.specs.Dictionary.{entries, first_with, dict_put, dict_del};
ghost use Rattle.instr_table.specs.Deque.{ends, deque_quad, deque_put};
ghost use Rattle.instr_table.specs.Outcome.{gives};
ghost use Rattle.instr_table.specs.Row.{dict_tested, deque_tested, take_row};
ghost use Rattle.instr_table.specs.Spelling.{is_op};
ghost use Rattle.vm_dict.specs.Made.{Takes, HasRoom};
ghost use Rattle.vm_step.specs.declared.group.Group.TheVariants.{Lists};
ghost use Rattle.vm_step.specs.Groups.{group_of};
ghost use Rattle.vm_step.specs.TakenItems.{taken_in, taken_value};
ghost use Rattle.vm_step.specs.Moves.{Ready, Turns, plain_row, values_of};

use crate::lane::{Lane, StepEnd};
use crate::taking::count_word;
use cap_words::Word;
use instr_table::Op;
use quad_memory::Quads;
use vm_dict::{
    Taken, deque_len, deque_new, deque_pop, deque_pull, deque_push, deque_put, dict_add, dict_del,
    dict_get, dict_set,
};

// Does what the row of such an operation says.
pub(crate) fn on_lists(quads: &mut Quads, lane: &mut Lane, op: &Op, next: Word) -> StepEnd
    requires in_row { IsTrue (is_op op.now) }
    requires group { group_of op.now ≡ Lists }
    requires ready { Ready quads.old lane.old (plain_row quads.old lane.old op.now next).charge.quads }
    ensures { Turns quads.old quads.new lane.old lane.new (plain_row quads.old lane.old op.now next).outcome result }
{
    match op {
        Op::DictTest(n) => {
            let answer = test_dict(quads, n, lane.at(quads, 2), lane.at(quads, 1));
            lane.gives(quads, 2, answer, next)
        }
        Op::DictPut(n) => put_entry(quads, lane, n, next),
        Op::DictDel => delete_entry(quads, lane, next),
        Op::DequeNew => new_deque(quads, lane, next),
        Op::DequeTest(n) => {
            let answer = test_deque(quads, n, lane.at(quads, 1));
            lane.gives(quads, 1, answer, next)
        }
        Op::DequePut(n) => put_item(quads, lane, n, next),
        Op::DequeTake(n) => take_item(quads, lane, n, next),
        _ => unreachable!(),
    }
}

// Whether the key is there, or its value or `#?`, by its number.
fn test_dict(quads: &Quads, n: &i32, dict: Word, key: Word) -> Word
    ensures { result ≡ dict_tested n.now (first_with key (entries (seen quads.now.store) dict)) }
{
    let found = dict_get(quads, dict, key);
    if *n == 0 {
        Word::truth(found.is_some())
    } else {
        value_or_undef(&found)
    }
}

fn value_or_undef(found: &Option<Word>) -> Word
    ensures { result ≡ unwrap_or found.now undef }
{
    match found {
        Some(value) => *value,
        None => Word::UNDEF,
    }
}

// `add`, or `set`.
fn put_entry(quads: &mut Quads, lane: &mut Lane, n: &i32, next: Word) -> StepEnd
    requires { Ready quads.old lane.old (gives 3 (dict_put n.now (seen quads.old.store) (next_quad (seen quads.old.store)) (item (values_of quads.old lane.old) 3) (item (values_of quads.old lane.old) 2) (item (values_of quads.old lane.old) 1)) next).charge.quads }
    ensures { Turns quads.old quads.new lane.old lane.new (gives 3 (dict_put n.now (seen quads.old.store) (next_quad (seen quads.old.store)) (item (values_of quads.old lane.old) 3) (item (values_of quads.old lane.old) 2) (item (values_of quads.old lane.old) 1)) next).outcome result }
{
    let dict = lane.at(quads, 3);
    let key = lane.at(quads, 2);
    let value = lane.at(quads, 1);
    let made = entry_put(quads, n, dict, key, value);
    lane.gives(quads, 3, made, next)
}

fn entry_put(quads: &mut Quads, n: &i32, dict: Word, key: Word, value: Word) -> Word
    requires { HasRoom quads.old (dict_put n.now (seen quads.old.store) (next_quad (seen quads.old.store)) dict key value).cells }
    ensures cells { Takes quads.old quads.new (dict_put n.now (seen quads.old.store) (next_quad (seen quads.old.store)) dict key value).cells }
    ensures word { result ≡ (dict_put n.now (seen quads.old.store) (next_quad (seen quads.old.store)) dict key value).word }
{
    if *n == 3 {
        dict_set(quads, dict, key, value)
    } else {
        dict_add(quads, dict, key, value)
    }
}

// `del`.
fn delete_entry(quads: &mut Quads, lane: &mut Lane, next: Word) -> StepEnd
    requires { Ready quads.old lane.old (gives 2 (dict_del (seen quads.old.store) (next_quad (seen quads.old.store)) (item (values_of quads.old lane.old) 2) (item (values_of quads.old lane.old) 1)) next).charge.quads }
    ensures { Turns quads.old quads.new lane.old lane.new (gives 2 (dict_del (seen quads.old.store) (next_quad (seen quads.old.store)) (item (values_of quads.old lane.old) 2) (item (values_of quads.old lane.old) 1)) next).outcome result }
{
    let dict = lane.at(quads, 2);
    let key = lane.at(quads, 1);
    let made = dict_del(quads, dict, key);
    lane.gives(quads, 2, made, next)
}

// An empty deque.
fn new_deque(quads: &mut Quads, lane: &mut Lane, next: Word) -> StepEnd
    requires { Ready quads.old lane.old 2 }
    ensures { Turns quads.old quads.new lane.old lane.new (gives 0 (one_cell (next_quad (seen quads.old.store)) (deque_quad nil nil)) next).outcome result }
{
    let made = deque_new(quads);
    lane.gives(quads, 0, made, next)
}

// Whether a deque is empty, or how many items it has, by its number.
fn test_deque(quads: &Quads, n: &i32, deque: Word) -> Word
    ensures { result ≡ deque_tested n.now (seen quads.now.store) deque }
{
    let count = deque_len(quads, deque);
    if *n == 1 {
        Word::truth(count == 0)
    } else {
        count_word(count)
    }
}

// `push`, or `put`.
fn put_item(quads: &mut Quads, lane: &mut Lane, n: &i32, next: Word) -> StepEnd
    requires { Ready quads.old lane.old (gives 2 (deque_put n.now (next_quad (seen quads.old.store)) (ends (seen quads.old.store) (item (values_of quads.old lane.old) 2)) (item (values_of quads.old lane.old) 1)) next).charge.quads }
    ensures { Turns quads.old quads.new lane.old lane.new (gives 2 (deque_put n.now (next_quad (seen quads.old.store)) (ends (seen quads.old.store) (item (values_of quads.old lane.old) 2)) (item (values_of quads.old lane.old) 1)) next).outcome result }
{
    let deque = lane.at(quads, 2);
    let value = lane.at(quads, 1);
    let made = item_put(quads, n, deque, value);
    lane.gives(quads, 2, made, next)
}

fn item_put(quads: &mut Quads, n: &i32, deque: Word, value: Word) -> Word
    requires { HasRoom quads.old (deque_put n.now (next_quad (seen quads.old.store)) (ends (seen quads.old.store) deque) value).cells }
    ensures cells { Takes quads.old quads.new (deque_put n.now (next_quad (seen quads.old.store)) (ends (seen quads.old.store) deque) value).cells }
    ensures word { result ≡ (deque_put n.now (next_quad (seen quads.old.store)) (ends (seen quads.old.store) deque) value).word }
{
    if *n == 2 {
        deque_push(quads, deque, value)
    } else {
        deque_put(quads, deque, value)
    }
}

// `pop`, or `pull`.
fn take_item(quads: &mut Quads, lane: &mut Lane, n: &i32, next: Word) -> StepEnd
    requires { Ready quads.old lane.old (take_row n.now (seen quads.old.store) (ends (seen quads.old.store) (item (values_of quads.old lane.old) 1)) next).charge.quads }
    ensures { Turns quads.old quads.new lane.old lane.new (take_row n.now (seen quads.old.store) (ends (seen quads.old.store) (item (values_of quads.old lane.old) 1)) next).outcome result }
{
    let deque = lane.at(quads, 1);
    let taken = item_taken(quads, n, deque);
    lane.advance(quads, 1, next);
    lane.push(quads, taken.deque);
    lane.push(quads, taken.value);
    StepEnd::Going
}

fn item_taken(quads: &mut Quads, n: &i32, deque: Word) -> Taken
    requires { HasRoom quads.old (taken_in n.now quads.old deque).cells }
    ensures cells { Takes quads.old quads.new (taken_in n.now quads.old deque).cells }
    ensures deque { result.deque ≡ (taken_in n.now quads.old deque).word }
    ensures value { result.value ≡ taken_value n.now quads.old deque }
{
    if *n == 3 {
        deque_pop(quads, deque)
    } else {
        deque_pull(quads, deque)
    }
}
