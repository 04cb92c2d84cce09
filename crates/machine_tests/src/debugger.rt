// Commands of a debugger.
use crate::modules::{ONE_LANE, committed, machine_of};
use hum_outside::MemSink;
use quad_debug::{Command, Debug, Place, ScriptError, WriteFault, read_script};
use quad_memory::NoMemory;
use std::alloc::Global;
use std::process::Abort;
use std::test::Fail;

const PRINTS: &str = ".export boot
boot:
 push 42
 state 1
 actor send
 end commit
";

const SAYS: &str = ".export boot
boot:
 push 42
 state 2
 actor send
 end commit
";

// Each event of the first actor sends it a message, so that there are more entries than are kept.
const REPEATS: &str = ".export boot
boot:
 push #nil
 my self
 actor send
 end commit
";

// A debugger of the machine of that module under so many cycles.
fn debugger(rt: &impl Abort, alloc: Global, module: &str, cycles: u32) -> Result<Debug, NoMemory> {
    let machine = machine_of(rt, alloc, module, [1000, 200, cycles], ONE_LANE)?;
    Debug::start(alloc, machine)
}

// Reads a script, which is short.
fn read(rt: &impl Abort, alloc: Global, script: &str) -> Result<Vec<Command>, ScriptError> {
    assert!(rt; script.len() < 1000);
    read_script(alloc, script.as_bytes())
}

// Whether each command of a script is obeyed, and they write that.
fn tells(
    rt: &impl Abort,
    alloc: Global,
    debug: &mut Debug,
    script: &str,
    text: &str,
) -> Result<bool, NoMemory> {
    let mut out = MemSink::with_room(alloc, 10_000, 100, Vec::new(alloc))?;
    let commands = read(rt, alloc, script).expect(rt, "a script");
    for command in &commands {
        if debug.obey(*command, &mut out).is_err() {
            return Ok(false);
        }
    }
    Ok(out.bytes() == text.as_bytes())
}

// Whether a script over that module writes that. The machine is dropped here: a test that held several would be too large to be proved.
fn obeys(
    rt: &impl Abort,
    alloc: Global,
    module: &str,
    cycles: u32,
    script: &str,
    text: &str,
) -> Result<bool, NoMemory> {
    let mut debug = debugger(rt, alloc, module, cycles)?;
    tells(rt, alloc, &mut debug, script, text)
}

// A module and its cycles, a script, and what it writes.
const OBEYED: [(&str, u32, &str, &str); 9] = [
    (
        PRINTS,
        100,
        "queue\nevent 1\nqueue\nevent 5\nback 2\n",
        "* ready 0\n* event 0 committed\n* ready 1\n42\n* event 1 committed\n* rest\n\
            * event 0 committed\n* event 1 committed\n",
    ),
    (
        PRINTS,
        100,
        "step 0\nstep 3\nstep 10\nstep 1\nevent 0\nbreak 1\nbreak 7",
        "* turn 0\n* turn 3\n42\n* turn 6\n* turn 6\n* rest\n* rest\n* rest\n",
    ),
    (
        PRINTS,
        100,
        "event 0\nbreak 0\nbreak 0\nbreak 1\n",
        "* in flight 0\n* in flight 0\n* event 0 committed\n42\n* event 1 committed\n",
    ),
    (
        SAYS,
        100,
        "event 2\nback 1\n",
        "* event 0 committed\n* event 1 failed: device refused\n* event 1 failed: device refused\n",
    ),
    (
        PRINTS,
        3,
        "event 1\nevent 1\nbreak 0\nbreak 9\nback 64\nstep 5\n",
        "* event 0 spent cycles\n* spent\n* spent\n* spent\n* spent\n* event 0 spent cycles\n* turn 5\n",
    ),
    (
        PRINTS,
        100,
        "show rom 15\nshow rom 16\nshow rom 20\nshow ram 6\nshow ram 8",
        "* rom 15 none\n* rom 16 00000009 80000000 8000002A 00000011\n* rom 20 none\n\
            * ram 6 00000006 00000010 20000005 00000000\n* ram 8 none\n",
    ),
    (
        PRINTS,
        100,
        "step 2\nsheet\n",
        "* turn 2\n\
            * sponsor 0 memory received 1000 passed 0 spent 1 held 999\n\
            * sponsor 0 events received 200 passed 0 spent 0 held 200\n\
            * sponsor 0 cycles received 100 passed 0 spent 1 held 99\n",
    ),
    (PRINTS, 100, " step\t1 \r\n\n  \t\nqueue", "* turn 1\n"),
    (
        PRINTS,
        100,
        "event 2\nevent 1",
        "* event 0 committed\n42\n* event 1 committed\n* rest\n",
    ),
];

#[test]
fn scripts_are_obeyed(rt: HostRuntime) -> Result<(), Fail> {
    for (module, cycles, script, text) in OBEYED {
        assert!(rt;
            obeys(&rt, rt.alloc(), module, cycles, script, text)?,
            "{script}"
        );
    }
    Ok(())
}

// Whether `event 9` fails over that sink, which then holds that text, and again writes the rest over a good one.
fn goes_on(
    rt: &impl Abort,
    alloc: Global,
    call: u64,
    text: &str,
    rest: &str,
) -> Result<bool, NoMemory> {
    let mut debug = debugger(rt, alloc, PRINTS, 100)?;
    let mut out = MemSink::with_room(alloc, 100, 1, vec![in alloc; call]?)?;
    let refused = debug.obey(Command::Event(9), &mut out) == Err(WriteFault);
    let goes_on = tells(rt, alloc, &mut debug, "event 9", rest)?;
    Ok(refused && out.bytes() == text.as_bytes() && goes_on)
}

// The write of that number fails on a sink that takes a byte a call: this then stands there, and the next command writes the rest.
#[test]
fn a_write_fails_and_the_next_command_goes_on(rt: HostRuntime) -> Result<(), Fail> {
    let alloc = rt.alloc();
    let rest = "42\n* event 1 committed\n* rest\n";
    assert!(rt; goes_on(&rt, alloc, 0, "", rest)?);
    assert!(rt; goes_on(&rt, alloc, 21, "* event 0 committed\n4", rest)?);
    assert!(rt; goes_on(&rt, alloc, 25, "* event 0 committed\n42\n* ", "* rest\n")?);
    Ok(())
}

// Whether a script is refused, and this is its first line that is neither blank nor a command.
fn refuses(rt: &impl Abort, alloc: Global, script: &str, line: u32) -> bool {
    matches!(read(rt, alloc, script), Err(ScriptError::Refused { line: at }) if at == line)
}

// Scripts, and their first line that is neither blank nor a command.
const REFUSED: [(&str, u32); 16] = [
    ("walk 3", 1),
    ("step 1\r\nstep\n", 2),
    ("\n\nstep 1 2", 3),
    ("step 1234567890", 1),
    ("step -1", 1),
    ("step", 1),
    ("queue 1", 1),
    ("back 0", 1),
    ("back 65", 1),
    ("show 5", 1),
    ("show rim 5", 1),
    ("show rom x", 1),
    ("show rom 1 2", 1),
    ("queue ; now", 1),
    ("queue\nqueue\r", 2),
    ("Queue", 1),
];

#[test]
fn scripts_are_refused(rt: HostRuntime) {
    for (script, line) in REFUSED {
        assert!(rt; refuses(&rt, rt.alloc(), script, line), "{script}");
    }
}

#[test]
fn scripts_are_read(rt: HostRuntime) -> Result<(), Fail> {
    let alloc = rt.alloc();
    let all =
        "step 000000001\nevent 999999999\nbreak 0\nshow rom 16\nshow ram 1\nqueue\nsheet\nback 64";
    let commands = read(&rt, alloc, all).expect(&rt, "a script");
    let wanted = [
        Command::Step(1),
        Command::Event(999_999_999),
        Command::BreakAt(0),
        Command::Show(Place::Rom(16)),
        Command::Show(Place::Ram(1)),
        Command::Queue,
        Command::Sheet,
        Command::Back(64),
    ];
    assert!(rt; commands.as_slice() == wanted.as_slice());
    let none = read(&rt, alloc, "").expect(&rt, "an empty script");
    assert!(rt; none.is_empty());
    Ok(())
}

// Appends the lines of the messages that committed, from the first up to the end.
fn push_committed(alloc: Global, text: &mut String, first: u32, end: u32) -> Result<(), NoMemory> {
    for message in first..end {
        text.push_str(&format!(in alloc; "* event {message} committed\n")?)?;
    }
    Ok(())
}

#[test]
fn the_last_entries_are_kept(rt: HostRuntime) -> Result<(), Fail> {
    let alloc = rt.alloc();
    let mut text = String::new(alloc);
    push_committed(alloc, &mut text, 0, 70)?;
    push_committed(alloc, &mut text, 6, 70)?;
    assert!(rt; obeys(&rt, alloc, REPEATS, 1000, "event 70\nback 64", &text)?);
    Ok(())
}

// Whether a debugger that is started on the machine of another one keeps none of its entries, and hands on its machine.
fn starts_anew(rt: &impl Abort, alloc: Global) -> Result<bool, NoMemory> {
    let mut debug = debugger(rt, alloc, REPEATS, 1000)?;
    let mut out = MemSink::with_room(alloc, 10_000, 100, Vec::new(alloc))?;
    let obeyed = debug.obey(Command::Event(70), &mut out).is_ok();
    let mut debug = Debug::start(alloc, debug.end())?;
    let text = "* event 70 committed\n* event 70 committed\n";
    let told = tells(rt, alloc, &mut debug, "back 3\nevent 1\nback 3", text)?;
    let none = debug.show(Place::Rom(0)).is_none();
    let last = debug.end().journal().last() == Some(&committed(70));
    Ok(obeyed && told && none && last)
}

#[test]
fn a_debugger_starts_without_entries(rt: HostRuntime) -> Result<(), Fail> {
    assert!(rt; starts_anew(&rt, rt.alloc())?);
    Ok(())
}
