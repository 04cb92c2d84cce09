// What the operations cost.

ghost use Rattle.std.specs.Prelude.{◌≡◌, ℕ, ◌+◌, length, IsTrue};
ghost use Rattle.cap_words.specs.Words.{W};
ghost use Rattle.cap_words.specs.Seen.{seen};
ghost use Rattle.instr_table.specs.Dictionary.{dict_set, dict_del};
ghost use Rattle.instr_table.specs.Deque.{taking};
ghost use Rattle.instr_table.specs.Outcome.{charge};
ghost use Rattle.vm_dict.specs.Operands.{is_list_op, IsCost};

use crate::cells::pair;
use crate::deque::{item_count, lists_of};
use crate::dict::find;
use cap_words::Word;
use instr_table::{Charge, Op};
use quad_memory::Quads;

/// What an operation on a dictionary or a deque costs. `list` is its dictionary or deque, and `key` its key; an operation that has no such
/// operand does not look at it.
pub fn cost(quads: &Quads, op: Op, list: Word, key: Word) -> Charge
    requires { IsTrue (is_list_op op) }
    ensures { IsCost op quads.now list key result }
{
    match op {
        Op::DictTest(_) | Op::DequeTest(_) => only_quads(1),
        Op::DictPut(n) => {
            if n == 3 {
                only_quads(set_cost(quads, list, key))
            } else {
                only_quads(2)
            }
        }
        Op::DictDel => only_quads(del_cost(quads, list, key)),
        Op::DequeNew => only_quads(2),
        Op::DequePut(_) => only_quads(3),
        Op::DequeTake(n) => {
            let lists = lists_of(quads, list);
            if n == 3 {
                only_quads(take_cost(quads, lists.front, lists.back))
            } else {
                only_quads(take_cost(quads, lists.back, lists.front))
            }
        }
        _ => unreachable!(),
    }
}

fn only_quads(quads: u32) -> Charge
    ensures { result ≡ charge quads 0 }
{
    Charge { quads, events: 0 }
}

// The new entry, those before the old one, and the item.
fn set_cost(quads: &Quads, dict: Word, key: Word) -> u32
    ensures { (n : ℕ) → (value : W) → result ≡ length (dict_set (seen quads.now.store) n dict key value).cells + 1 }
{
    match find(quads, dict, key) {
        Some(f) => f.before + 2,
        None => 2,
    }
}

// The entries before the one that is left out, and the item.
fn del_cost(quads: &Quads, dict: Word, key: Word) -> u32
    ensures { (n : ℕ) → result ≡ length (dict_del (seen quads.now.store) n dict key).cells + 1 }
{
    match find(quads, dict, key) {
        Some(f) => f.before + 1,
        None => 1,
    }
}

// The deque, both items, and a pair for each item of a list that is turned round.
fn take_cost(quads: &Quads, near: Word, far: Word) -> u32
    ensures { (n : ℕ) → result ≡ length (taking (seen quads.now.store) n near far).cells + 3 }
{
    match pair(quads, near) {
        Some(_) => 3,
        None => item_count(quads, far) + 3,
    }
}
