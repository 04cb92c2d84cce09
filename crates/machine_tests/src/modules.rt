// Machines that boot from the text of one module, and entries of their journals.
use cap_words::Word;
use quad_memory::Image;
use std::alloc::Global;
use std::process::Abort;
use uasm_link::link;
use uasm_read::read_module;
use vm_machine::{Lanes, Machine, NoMemory};
use vm_sponsor::Grant;
use vm_turn::{Entry, Outcome};

// The image of that module, linked by itself.
pub fn image_of(rt: &impl Abort, alloc: Global, text: &str) -> Image {
    let module = read_module(alloc, text.as_bytes()).expect(rt, "a module");
    let linked = link(alloc, &[module]).ok();
    linked.expect(rt, "an image")
}

// The grant of so many quads, events and cycles.
pub fn grant_of(rt: &impl Abort, grant: [u32; 3]) -> Grant {
    let [memory, events, cycles] = grant;
    Grant::new(memory, events, cycles).expect(rt, "a grant")
}

pub const ONE_LANE: Lanes = Lanes { count: 1, seed: 7 };

// The machine that boots from that module under that grant.
pub fn machine_of(
    rt: &impl Abort,
    alloc: Global,
    text: &str,
    grant: [u32; 3],
    lanes: Lanes,
) -> Result<Machine, NoMemory> {
    assert!(rt; lanes.count > 0);
    assert!(rt; lanes.count < 65);
    let image = image_of(rt, alloc, text);
    Machine::boot(alloc, &image, grant_of(rt, grant), lanes)
}

pub fn committed(message: u32) -> Entry {
    let outcome = Outcome::Committed;
    Entry { message, outcome }
}
