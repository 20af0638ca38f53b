//! Lines that are read at once from the bytes ahead.

use bbm_events::{Event, Header, Item};
use bbm_log_grammar::{
    ByWord, Dsbs, Front, Isbs, Tlbis, Writes, line_ahead, read_event, read_header,
};
use std::test::Fail;

/// A line of each event that is read at once.
const LINES: [&[u8]; 16] = [
    b"w 1 0x40000008 0x3\n",
    b"w 127 0x40000008 0x3\n",
    b"isb 12\n",
    b"dsb 0 ishst\n",
    b"dsb 0 nsh\n",
    b"dmb 3 ish\n",
    b"dmb 3 ld\n",
    b"tlbi 0 vae2is 0x40\n",
    b"tlbi 0 aside1is 0x1000000000000\n",
    b"tlbi 0 vmalle1is\n",
    b"tlbi 0 alle2is\n",
    b"tlbi 0 vmalls12e1is\n",
    b"msr 1 ttbr0_el1 0x40001000\n",
    b"lock 1 12 @mm:lock\n",
    b"unlock 1 12\n",
    b"init 0 0x40000000\n",
];

/// What is read at once of each has this behind it.
const BEHIND: &[u8] = &[b' '; 64];

/// Whether the line at the front ends behind so many bytes, and is read as this event by the reader of any line.
fn is_read_alike(header: &Header, bytes: &[u8], event: Event, count: usize) -> bool {
    if count >= bytes.len() || bytes[count] != b'\n' {
        return false;
    }
    match read_event(header, &bytes[..count]) {
        Ok(Item::Event(read, _)) => read == event,
        _ => false,
    }
}

/// Whether the bytes begin with a line of this kind, which is read as the reader of any line reads it.
fn is_read_ahead<F: Front>(header: &Header, bytes: &[u8]) -> bool {
    match line_ahead::<F, u8>(header, bytes) {
        Some((event, _, count)) => is_read_alike(header, bytes, event, count),
        None => false,
    }
}

#[test]
fn a_line_of_each_event_is_read_at_once(rt: HostRuntime) -> Result<(), Fail> {
    let header = read_header(b"bbmlog 4 hyp 128 1 1 1 -")?;
    for line in LINES {
        let mut bytes = Vec::new(rt.alloc());
        bytes.extend_from_slice(line)?;
        bytes.extend_from_slice(BEHIND)?;
        let usual = is_read_ahead::<Writes>(&header, &bytes)
            || is_read_ahead::<Dsbs>(&header, &bytes)
            || is_read_ahead::<Tlbis>(&header, &bytes)
            || is_read_ahead::<Isbs>(&header, &bytes);
        assert!(rt; usual || is_read_ahead::<ByWord>(&header, &bytes));
    }
    Ok(())
}
