// For the simulator's people, to copy from: a record is read from a block, its picture is moved, its name changed, and it is written to a block again;
// then what is refused: an output of another length, and two records. Printed are the timing before, and of each writing the answer and the output, of
// the first the new timing too.
#![tactic(auto)]

use page::Page;
use standard_record::{Descriptor, Held, HeldPair, Ratio, StandardRecord, StandardTiming};
use standard_writing::WriteRefusal;
use std::io;
use std::io::Write;
use steps::Span;

fn main(rt: HostRuntime) -> io::Result<()> {
    // A panel of 800 by 600 with the name LOBBY: docs/specimen.bin, two lines of its head, one of pairs, one for each slot. Behind it another name.
    let lent = b"\
        \x00\xff\xff\xff\xff\xff\xff\x00\x04\x43\x34\x12\x01\x00\x00\x00\x0a\x1e\x01\x03\
        \x81\x20\x12\x64\x0a\x00\x00\x80\x40\x80\x40\x80\x40\x80\x40\x01\x08\x80\
        \x81\x80\x01\x01\x01\x01\x01\x01\x01\x01\x01\x01\x01\x01\x01\x01\
        \xa0\x0f\x20\x00\x31\x58\x1c\x20\x28\x80\x14\x00\x40\xb4\x10\x00\x00\x1e\
        \x00\x00\x00\xfc\x00LOBBY\x0a\x20\x20\x20\x20\x20\x20\x20\
        \x00\x00\x00\x00\x00\x00\x00\x00\x00\x00\x00\x00\x00\x00\x00\x00\x00\x00\
        \x00\x00\x00\x00\x00\x00\x00\x00\x00\x00\x00\x00\x00\x00\x00\x00\x00\x00\x00\xc3\
        UPPER DECK";
    let before = standard_reading::read_standard(bits::part(lent, 0, 128)).edid;
    let mut out = [0u8; 4096];
    let mut page = Page {
        out: &mut out,
        at: 0,
    };
    standard_slot_lines::detailed_lines(&mut page, before.timings.detailed);
    // The texts of a record are spans: the bytes that they point into are lent beside it, here all of them.
    let mut block = [0u8; 128];
    let answer = standard_writing::write_standard(renamed(further_left(before)), lent, &mut block);
    tell(&mut page, answer, &block);
    let after = standard_reading::read_standard(&block).edid;
    standard_slot_lines::detailed_lines(&mut page, after.timings.detailed);
    // An output that is not 128 bytes long is refused with 10, a record that no block gives with 11; the output stays as it was.
    let mut short = [0x55u8; 127];
    let ten = standard_writing::write_standard(before, lent, &mut short);
    tell(&mut page, ten, &short);
    let mut kept = [0x55u8; 128];
    // The bytes of 256 wide, 16:10 at 61 Hz would be 01 01, which stand for no pair.
    let unused = with_pair(before, 256, 16, 10, 61);
    let eleven = standard_writing::write_standard(unused, lent, &mut kept);
    tell(&mut page, eleven, &kept);
    // 1:1 is no ratio of revision 3, which this panel has; of revision 2 it is.
    let square = with_pair(before, 1280, 1, 1, 60);
    let eleven = standard_writing::write_standard(square, lent, &mut kept);
    tell(&mut page, eleven, &kept);
    let old = standard_writing::write_standard(of_revision(square, 2), lent, &mut kept);
    tell(&mut page, old, &kept);
    let n = page.at;
    rt.stdout().write_all(frames::start(&out, n))
}

fn tell(page: &mut Page, answer: Result<(), WriteRefusal>, block: &[u8]) {
    let number = match answer {
        Ok(()) => 0,
        Err(refusal) => refusal.number(),
    };
    page.bytes(b"answer");
    page.field(number);
    page.newline();
    page.hex_span(block, 0, block.len());
    page.newline();
}

// The picture of the first timing eight pixels further left: its front porch is eight more, its back porch eight fewer. What lies deep in a
// record is copied out, changed and put back, one step at a time.
fn further_left(r: StandardRecord) -> StandardRecord {
    let mut timings = r.timings;
    let mut detailed = timings.detailed;
    let mut items = detailed.items;
    let mut held = items[0];
    let front = held.timing.across.front.0;
    let back = held.timing.across.back.0;
    if front <= 1015 && 8 <= back {
        let more = front + 8;
        let fewer = back - 8;
        held.timing.across.front.0 = more;
        held.timing.across.back.0 = fewer;
    }
    items[0] = held;
    detailed.items = items;
    timings.detailed = detailed;
    let mut edid = r;
    edid.timings = timings;
    edid
}

// Slot 2, the first with a descriptor, holds a name, and it shows the ten bytes behind the block.
fn renamed(r: StandardRecord) -> StandardRecord {
    let mut descriptors = r.descriptors;
    let mut items = descriptors.items;
    items[0] = Held {
        descriptor: Descriptor::Name(Span {
            start: 128,
            len: 10,
        }),
        slot: 2,
    };
    descriptors.items = items;
    let mut edid = r;
    edid.descriptors = descriptors;
    edid
}

// The first pair is this one.
fn with_pair(r: StandardRecord, width: u16, across: u16, down: u16, rate: u16) -> StandardRecord {
    let mut timings = r.timings;
    let mut standard = timings.standard;
    let mut items = standard.items;
    items[0] = HeldPair {
        pair: StandardTiming {
            width,
            ratio: Ratio {
                width: across,
                height: down,
            },
            rate,
        },
        slot: 0,
    };
    standard.items = items;
    timings.standard = standard;
    let mut edid = r;
    edid.timings = timings;
    edid
}

fn of_revision(r: StandardRecord, revision: u8) -> StandardRecord {
    let mut version = r.version;
    version.revision = revision;
    let mut edid = r;
    edid.version = version;
    edid
}
