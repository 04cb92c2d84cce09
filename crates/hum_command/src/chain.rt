// The command `chain`: the text of a chain of actors, and its run.
ghost use Rattle.std.specs.Prelude.{◌≡◌, ◌<◌, ◌≤◌, ◌^◌, ◌++◌, IfOk, IfErr, OnOk};
ghost use Rattle.std.specs.List.{flat_map};
ghost use Rattle.hum_command.specs.Keys.{WithinLimits};
ghost use Rattle.hum_command.specs.Chain as spec;
ghost use Rattle.hum_command.specs.TextRuns.{StartsText};
ghost use Rattle.hum_command.specs.TextRefusals.{TextFails};

use crate::answer::Answer;
use crate::keys::Keys;
use crate::run::start_text;
use hum_run::Run;
use itoa::Buffer;
use quad_memory::NoMemory;
use std::alloc::{AllocError, Global};

// Puts parts behind a text.
fn push_parts(text: &mut Vec<u8>, parts: &[&[u8]]) -> Result<(), AllocError>
    ensures { OnOk result (text.new.items ≡ text.old.items ++ flat_map (λ part. part.now) parts.now) }
{
    for part in parts {
        text.extend_from_slice(part)?;
    }
    Ok(())
}

// Puts the statement behind a text that creates the actor behind the first k.
fn push_forwarder(text: &mut Vec<u8>, k: u32) -> Result<(), AllocError>
    requires { k < 2 ^ 31 }
    ensures { OnOk result (text.new.items ≡ text.old.items ++ spec.forwarder k) }
{
    let mut number = Buffer::new();
    let mut next = Buffer::new();
    push_parts(
        text,
        &[
            b"CREATE a",
            number.format(k + 1).as_bytes(),
            b" WITH fwd(a",
            next.format(k).as_bytes(),
            b")\n",
        ],
    )
}

// Puts the statements behind a text that create so many actors behind the first.
fn push_forwarders(text: &mut Vec<u8>, count: u32) -> Result<(), AllocError>
    requires { count < 2 ^ 31 }
    ensures { OnOk result (text.new.items ≡ text.old.items ++ spec.forwarders count) }
{
    for k in 0..count {
        push_forwarder(text, k + 1)?;
    }
    Ok(())
}

/// The text that `chain N` runs, for N from 1 to 2,000: each of N actors forwards one more than it is sent to the one before it, the first one
/// to `println`, and the last one is sent 0.
pub fn chain_text(alloc: Global, n: u32) -> Result<Vec<u8>, NoMemory>
    requires some { 1 ≤ n }
    requires most { n ≤ 2000 }
    ensures value { IfOk result (λ text. text.items ≡ spec.chain_text n) }
{
    let mut text = Vec::new(alloc);
    push_parts(
        &mut text,
        &[
            b"LET fwd(next) = \\n.[ SEND add(n, 1) TO next ]\n",
            b"CREATE a1 WITH fwd(println)\n",
        ],
    )?;
    push_forwarders(&mut text, n - 1)?;
    let mut last = Buffer::new();
    push_parts(
        &mut text,
        &[b"SEND 0 TO a", last.format(n).as_bytes(), b"\n"],
    )?;
    Ok(text)
}

/// The run of a chain's text with these keys before its first turn; else the answer.
pub fn start_chain(alloc: Global, n: u32, keys: Keys) -> Result<Run, Answer>
    requires some { 1 ≤ n }
    requires most { n ≤ 2000 }
    requires limits { WithinLimits keys }
    ensures starts { IfOk result (StartsText (spec.chain_text n) keys) }
    ensures fails { IfErr result (TextFails (spec.chain_text n)) }
{
    match chain_text(alloc, n) {
        Ok(text) => start_text(alloc, &text, keys),
        Err(_) => Err(Answer::NoMemory),
    }
}
