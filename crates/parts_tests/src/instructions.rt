use cap_words::{Quad, Word};
use instr_table::*;
use std::test::Fail;

fn instruction(number: i32, operand: Word) -> Option<Quad> {
    Some(Quad {
        t: Word::INSTR_T,
        x: Word::fix(number)?,
        y: operand,
        z: Word::NIL,
    })
}

fn decoded(number: i32, operand: Word) -> Option<Op> {
    decode(instruction(number, operand)?)
}

fn decoded_number(number: i32, operand: i32) -> Option<Op> {
    decoded(number, Word::fix(operand)?)
}

// The quad that spells what the quad of these numbers spells.
fn encoded(number: i32, operand: Word) -> Option<Quad> {
    let op = decode(instruction(number, operand)?)?;
    Some(encode(op, Word::NIL))
}

fn returns(number: i32, operand: Word) -> bool {
    encoded(number, operand) == instruction(number, operand)
}

#[test]
fn numbers_spell_operations(rt: HostRuntime) {
    let rows = [
        (0, 7, Op::Push(Word::number_word(7))),
        (1, 0, Op::Dup(0)),
        (1, 15, Op::Dup(15)),
        (2, 4095, Op::Drop(4095)),
        (3, 1, Op::Pick(1)),
        (4, -15, Op::Roll(-15)),
        (4, 1, Op::Roll(1)),
        (6, 15, Op::Pair(15)),
        (7, 1, Op::Part(1)),
        (8, -4095, Op::Nth(-4095)),
        (8, 0, Op::Nth(0)),
        (9, 1, Op::QuadMake(1)),
        (9, 4, Op::QuadMake(4)),
        (9, -1, Op::QuadTake(-1)),
        (9, -4, Op::QuadTake(-4)),
        (10, 3, Op::Get(3)),
        (13, 5, Op::Cmp(5)),
        (14, 0, Op::AluNot),
        (14, 6, Op::Alu(6)),
        (17, 4095, Op::Msg(4095)),
        (18, -1, Op::State(-1)),
        (19, 2, Op::My(2)),
        (20, 0, Op::ActorSend),
        (20, 1, Op::ActorPost),
        (20, 2, Op::ActorCreate),
        (20, 3, Op::ActorAssign),
        (20, 4, Op::ActorBecome),
        (21, -1, Op::End(-1)),
        (22, 1, Op::DictTest(1)),
        (22, 3, Op::DictPut(3)),
        (22, 4, Op::DictDel),
        (23, 0, Op::DequeNew),
        (23, 1, Op::DequeTest(1)),
        (23, 2, Op::DequePut(2)),
        (23, 3, Op::DequeTake(3)),
        (23, 4, Op::DequePut(4)),
        (23, 5, Op::DequeTake(5)),
        (23, 6, Op::DequeTest(6)),
        (24, 0, Op::SponsorNew),
        (24, 3, Op::SponsorGrant(3)),
        (24, 4, Op::SponsorReclaim),
        (24, 5, Op::SponsorStart),
        (24, 6, Op::SponsorStop),
    ];
    for (number, operand, op) in rows {
        assert!(rt;
            decoded_number(number, operand) == Some(op),
            "at {number}, {operand}"
        );
        let operand = Word::fix(operand).expect(&rt, "a number in range");
        assert!(rt; returns(number, operand), "at {number}");
    }
}

#[test]
fn words_spell_operations(rt: HostRuntime) {
    let rows = [
        (0, Word::NIL, Op::Push(Word::NIL)),
        (5, Word::UNDEF, Op::Depth),
        (11, Word::PAIR_T, Op::Typeq(Word::PAIR_T)),
        (12, Word::UNDEF, Op::Eq(Word::UNDEF)),
        (15, Word::NIL, Op::If(Word::NIL)),
        (16, Word::UNDEF, Op::Jump),
        (25, Word::TRUE, Op::Assert(Word::TRUE)),
        (26, Word::UNDEF, Op::Debug),
    ];
    for (number, operand, op) in rows {
        assert!(rt; decoded(number, operand) == Some(op), "at {number}");
        assert!(rt; returns(number, operand), "at {number}");
    }
}

#[test]
fn operands_lie_in_their_ranges(rt: HostRuntime) {
    let rows = [
        (1, 0, 15),
        (2, 0, 4095),
        (3, 1, 4095),
        (4, -15, 15),
        (6, 1, 15),
        (7, 1, 15),
        (8, -4095, 4095),
        (9, -4, 4),
        (10, 0, 3),
        (13, 0, 5),
        (14, 0, 6),
        (17, -4095, 4095),
        (18, -4095, 4095),
        (19, 0, 2),
        (20, 0, 4),
        (21, -1, 1),
        (22, 0, 4),
        (23, 0, 6),
        (24, 0, 6),
    ];
    for (number, low, high) in rows {
        assert!(rt; decoded_number(number, low).is_some(), "at {number}");
        assert!(rt; decoded_number(number, high).is_some(), "at {number}");
        assert!(rt; decoded_number(number, low - 1).is_none(), "below {number}");
        assert!(rt;
            decoded_number(number, high + 1).is_none(),
            "above {number}"
        );
        assert!(rt; decoded(number, Word::UNDEF).is_none(), "at {number}");
    }
    for (number, operand) in [
        (4, 0),
        (9, 0),
        (5, 0),
        (16, 0),
        (26, 0),
        (27, 0),
        (-1, 0),
        (1 << 29, 0),
    ] {
        assert!(rt; decoded_number(number, operand).is_none(), "at {number}");
    }
    assert!(rt; decoded(27, Word::UNDEF).is_none());
}

#[test]
fn only_instruction_cells_spell(rt: HostRuntime) -> Result<(), Fail> {
    // `end commit`
    let word = |bits: u32| Word::rom_bits(bits).expect(&rt, "a ROM word");
    let q = Quad {
        t: word(9),
        x: word(0x8000_0015),
        y: word(0x8000_0001),
        z: word(0),
    };
    assert!(rt; decode(q) == Some(Op::End(1)));
    assert!(rt; encode(Op::End(1), Word::UNDEF) == q);
    let pair = Quad {
        t: Word::PAIR_T,
        ..q
    };
    assert!(rt; decode(pair).is_none());
    let unnumbered = Quad { x: Word::NIL, ..q };
    assert!(rt; decode(unnumbered).is_none());
    Ok(())
}

#[test]
fn operations_cost_quads_and_events(rt: HostRuntime) {
    let rows = [
        (Op::Push(Word::NIL), Some((1, 0))),
        (Op::Dup(4), Some((4, 0))),
        (Op::Drop(4), Some((0, 0))),
        (Op::Pick(4), Some((1, 0))),
        (Op::Roll(-4), Some((4, 0))),
        (Op::Depth, Some((1, 0))),
        (Op::Pair(4), Some((5, 0))),
        (Op::Part(4), Some((5, 0))),
        (Op::Nth(4), Some((1, 0))),
        (Op::QuadMake(4), Some((2, 0))),
        (Op::QuadTake(-3), Some((3, 0))),
        (Op::Get(3), Some((1, 0))),
        (Op::Cmp(0), Some((1, 0))),
        (Op::If(Word::NIL), Some((0, 0))),
        (Op::ActorSend, Some((1, 1))),
        (Op::ActorPost, Some((1, 1))),
        (Op::ActorCreate, Some((2, 0))),
        (Op::ActorAssign, Some((0, 0))),
        (Op::ActorBecome, Some((0, 0))),
        (Op::End(1), Some((0, 0))),
        (Op::DictTest(0), Some((1, 0))),
        (Op::DictPut(2), Some((2, 0))),
        (Op::DictPut(3), None),
        (Op::DictDel, None),
        (Op::DequeNew, Some((2, 0))),
        (Op::DequeTest(6), Some((1, 0))),
        (Op::DequePut(2), Some((3, 0))),
        (Op::DequeTake(3), None),
        (Op::DequeTake(5), None),
        (Op::SponsorNew, None),
        (Op::SponsorGrant(1), Some((0, 0))),
        (Op::SponsorReclaim, Some((0, 0))),
        (Op::SponsorStart, Some((1, 1))),
        (Op::SponsorStop, Some((0, 0))),
        (Op::Assert(Word::NIL), Some((0, 0))),
        (Op::Debug, Some((0, 0))),
    ];
    for (op, cost) in rows {
        let charge = cost.map(|(quads, events)| Charge { quads, events });
        assert_eq!(rt; op_charge(op), charge);
    }
}

#[test]
fn laws_have_no_body(_rt: HostRuntime) {
    charges_as_listed();
    takes_what_it_charges();
    assigns_to_own();
    hands_on_what_it_has();
    keeps_authority();
    shown_stays();
    changes_keep_shown();
    makes_what_it_names();
    keeps_code_out_of_ram();
}
