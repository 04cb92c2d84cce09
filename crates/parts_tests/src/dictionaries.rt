ghost use Rattle.std.specs.Prelude.{◌↔◌, ◌+◌, ◌≤◌, ◌<◌, IsTrue};
ghost use Rattle.cap_words.specs.Store.{used};
ghost use Rattle.instr_table.specs.Outcome.{charge};
ghost use Rattle.vm_dict.specs.Operands.{is_list_op, IsCost};

use cap_words::{Quad, Word};
use instr_table::Op;
use quad_memory::{Image, NoMemory, Quads};
use std::alloc::Global;
use std::process::Abort;
use std::test::Fail;
use vm_dict::*;

// Quads over an image of one cell.
fn quads(rt: &impl Abort, alloc: Global, ram: u32) -> Result<Quads, NoMemory>
    requires { ram < 65_536 }
{
    let cell = Quad {
        t: Word::PAIR_T,
        x: Word::TRUE,
        y: Word::NIL,
        z: Word::UNDEF,
    };
    let boot = Word::rom_bits(16).expect(rt, "a ROM word");
    let image = Image::new(boot, vec![in alloc; cell]?).expect(rt, "an image");
    Quads::with_room(alloc, &image, ram)
}

fn number(rt: &impl Abort, n: i32) -> Word {
    Word::fix(n).expect(rt, "a number")
}

// Whether so many quads are left.
fn has_room(quads: &Quads, n: u32) -> bool
    ensures { IsTrue result ↔ (used quads.now.store + n ≤ quads.now.room) }
{
    quads.used() <= quads.room() && n <= quads.room() - quads.used()
}

// The quads that an operation costs, which are these and are left.
fn charged(rt: &impl Abort, quads: &Quads, op: Op, list: Word, key: Word, want: u32) -> u32
    requires { IsTrue (is_list_op op) }
    ensures room { used quads.now.store + result ≤ quads.now.room }
    ensures cost { IsCost op quads.now list key (charge result 0) }
{
    let charge = cost(quads, op, list, key);
    assert_eq!(rt; (charge.quads, charge.events), (want, 0));
    assert!(rt; has_room(quads, charge.quads));
    charge.quads
}

fn add(rt: &impl Abort, quads: &mut Quads, dict: Word, key: i32, value: i32) -> Word {
    assert!(rt; has_room(quads, 1));
    dict_add(quads, dict, number(rt, key), number(rt, value))
}

fn set(rt: &impl Abort, quads: &mut Quads, dict: Word, key: Word, value: Word, want: u32) -> Word {
    charged(rt, quads, Op::DictPut(3), dict, key, want);
    dict_set(quads, dict, key, value)
}

fn del(rt: &impl Abort, quads: &mut Quads, dict: Word, key: Word, want: u32) -> Word {
    charged(rt, quads, Op::DictDel, dict, key, want);
    dict_del(quads, dict, key)
}

fn pop(rt: &impl Abort, quads: &mut Quads, deque: Word, want: u32) -> Taken {
    charged(rt, quads, Op::DequeTake(3), deque, Word::UNDEF, want);
    deque_pop(quads, deque)
}

fn pull(rt: &impl Abort, quads: &mut Quads, deque: Word, want: u32) -> Taken {
    charged(rt, quads, Op::DequeTake(5), deque, Word::UNDEF, want);
    deque_pull(quads, deque)
}

#[test]
fn a_dictionary_is_set_and_deleted_from(rt: HostRuntime) -> Result<(), Fail> {
    let mut quads = quads(&rt, rt.alloc(), 100)?;
    let (one, two, three) = (number(&rt, 1), number(&rt, 2), number(&rt, 3));
    let first = add(&rt, &mut quads, Word::NIL, 1, 10);
    let both = add(&rt, &mut quads, first, 2, 20);
    assert!(rt; both == Word::ram(1));
    assert!(rt; dict_get(&quads, both, one) == Some(number(&rt, 10)));
    assert!(rt; dict_get(&quads, both, three).is_none());
    assert!(rt; dict_get(&quads, Word::TRUE, one).is_none());

    let changed = set(&rt, &mut quads, both, one, number(&rt, 11), 3);
    assert!(rt; dict_get(&quads, changed, one) == Some(number(&rt, 11)));
    assert!(rt; dict_get(&quads, changed, two) == Some(number(&rt, 20)));
    assert!(rt; dict_get(&quads, both, one) == Some(number(&rt, 10)));
    assert!(rt; quads.used() == 4);

    let rest = del(&rt, &mut quads, changed, two, 1);
    assert!(rt; dict_get(&quads, rest, two).is_none());
    assert!(rt; dict_get(&quads, rest, one) == Some(number(&rt, 11)));
    assert!(rt; del(&rt, &mut quads, rest, two, 1) == rest);
    assert!(rt; quads.used() == 4);

    let wider = set(&rt, &mut quads, rest, three, number(&rt, 30), 2);
    assert!(rt; dict_get(&quads, wider, three) == Some(number(&rt, 30)));
    let shorter = del(&rt, &mut quads, wider, one, 2);
    assert!(rt; dict_get(&quads, shorter, one).is_none());
    assert!(rt; dict_get(&quads, shorter, three) == Some(number(&rt, 30)));
    Ok(())
}

#[test]
fn an_entry_past_the_limit_does_not_count(rt: HostRuntime) -> Result<(), Fail> {
    let mut quads = quads(&rt, rt.alloc(), 20_000)?;
    let mut dict = Word::NIL;
    for key in 0..4096 {
        dict = add(&rt, &mut quads, dict, key, key);
    }
    let (last, past) = (number(&rt, 1), number(&rt, 0));
    assert!(rt; dict_get(&quads, dict, last) == Some(last));
    assert!(rt; dict_get(&quads, dict, past).is_none());
    let changed = set(&rt, &mut quads, dict, last, Word::TRUE, 4096);
    assert!(rt; dict_get(&quads, changed, last) == Some(Word::TRUE));
    assert!(rt; dict_get(&quads, changed, number(&rt, 2)) == Some(number(&rt, 2)));
    let shorter = del(&rt, &mut quads, changed, last, 4095);
    assert!(rt; dict_get(&quads, shorter, past) == Some(past));
    Ok(())
}

#[test]
fn a_deque_is_taken_from_at_both_ends(rt: HostRuntime) -> Result<(), Fail> {
    let mut quads = quads(&rt, rt.alloc(), 100)?;
    let (one, two, three) = (number(&rt, 1), number(&rt, 2), number(&rt, 3));
    assert!(rt; has_room(&quads, 7));
    let empty = deque_new(&mut quads);
    let pushed = deque_push(&mut quads, empty, one);
    let put = deque_put(&mut quads, pushed, two);
    assert!(rt; deque_len(&quads, put) == 2);
    assert!(rt; deque_len(&quads, Word::TRUE) == 0);

    let first = pop(&rt, &mut quads, put, 3);
    assert!(rt; first.value == one);
    let second = pop(&rt, &mut quads, first.deque, 4);
    assert!(rt; second.value == two);
    let third = pop(&rt, &mut quads, second.deque, 3);
    assert!(rt; third.value == Word::UNDEF);
    assert!(rt; deque_len(&quads, third.deque) == 0);

    assert!(rt; has_room(&quads, 6));
    let three_two = deque_push(&mut quads, third.deque, two);
    let three_two = deque_push(&mut quads, three_two, three);
    let last = pull(&rt, &mut quads, three_two, 5);
    assert!(rt; last.value == two);
    assert!(rt; deque_len(&quads, last.deque) == 1);
    let last = pull(&rt, &mut quads, last.deque, 3);
    assert!(rt; last.value == three);
    Ok(())
}
