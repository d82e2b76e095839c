//! Plays through readers and writers that stop short, and players that are called one call at a time.
use player::limits::IMAGE_ROOM;
use player::player::{FirstRecord, Player};
use playing::playing::play;
use std::alloc::{AllocError, Global};
use std::io;
use std::io::{ErrorKind, Read, Write};
use std::test::Fail;
use trace::reader::Reader;
use trace::records::{Record, SetupBuffer};
use trace::refusal::Refusal;

// A store, three loads and a note, over one level of one way and a memory of four lines with a bad one.
const EXAMPLE: &[u8] =
    b"\x00\x04\x01\x02\x01\x03\x09\x01\x01\x01\x02\x02\x01\x05\xc8\x01\x01\x04\x04\x01\x01\x10\x01\x01\x30\x04\x03end";

const EXAMPLE_LISTING: &[u8] = b"N end\nS 1\nL 2 117884932\nL 3 16\nF 4 0 3 9\nE 4 10\n";

// Gives at most `most` bytes in a call, and an error in the call of this number.
#[derive(Drop)]
struct Giver<'a> {
    left: &'a [u8],
    most: usize,
    calls: u32,
    failing: Option<(u32, ErrorKind)>,
}

impl<'a> Giver<'a> {
    fn new(left: &'a [u8], most: usize, failing: Option<(u32, ErrorKind)>) -> Giver<'a> {
        Giver {
            left,
            most,
            calls: 0,
            failing,
        }
    }
}

impl Read for Giver<'_> {
    fn read(&mut self, buffer: &mut [u8]) -> io::Result<usize> {
        self.calls = self.calls.saturating_add(1);
        if let Some((call, kind)) = self.failing {
            if self.calls == call {
                return Err(io::Error::from(kind));
            }
        }
        let count = self.left.len().min(buffer.len()).min(self.most);
        buffer[..count].copy_from_slice(&self.left[..count]);
        self.left = &self.left[count..];
        Ok(count)
    }
}

// Takes at most `most` bytes in a call, and an error once it has no room left.
#[derive(Drop)]
struct Taker {
    taken: Vec<u8>,
    most: usize,
    room: usize,
}

impl Taker {
    fn new(alloc: Global, most: usize, room: usize) -> Taker {
        Taker {
            taken: Vec::new(alloc),
            most,
            room,
        }
    }
}

impl Write for Taker {
    fn write(&mut self, bytes: &[u8]) -> io::Result<usize> {
        if self.room == 0 {
            return Err(io::Error::from(ErrorKind::StorageFull));
        }
        let count = bytes.len().min(self.most).min(self.room);
        self.taken.write_all(&bytes[..count])?;
        self.room -= count;
        Ok(count)
    }

    fn flush(&mut self) -> io::Result<()> {
        Ok(())
    }
}

// So many bytes of a trace: its setup, and passes of one step behind it.
fn passes(alloc: Global, length: usize) -> Result<Vec<u8>, AllocError> {
    let mut trace = Vec::from_slice(alloc, b"\x00\x04\x01\x01\x00\x01\x01\x01\x01")?;
    for at in trace.len()..length.max(trace.len()) {
        trace.push(if at % 2 == 1 { 3 } else { 1 })?;
    }
    Ok(trace)
}

#[test]
fn a_trace_has_at_most_32768_bytes(rt: HostRuntime) -> Result<(), Fail> {
    let alloc = rt.alloc();
    let table: [(usize, usize, &[u8]); 3] = [
        (32_767, 0, b"E 0 16379\n"),
        (32_768, 0, b"X 16380 1\nE 0 16379\n"),
        (32_769, 1, b"X 16380 1\nE 0 16379\n"),
    ];
    for (length, left, wanted) in table {
        let trace = passes(alloc, length)?;
        assert_eq!(rt; trace.len(), length);
        let mut reader = trace.as_slice();
        let mut listing = Vec::new(alloc);
        play(&mut reader, &mut listing)?;
        assert!(rt; listing.as_slice() == wanted, "at {length}");
        assert_eq!(rt; reader.len(), left, "at {length}");
    }
    Ok(())
}

#[test]
fn a_trace_may_come_in_pieces(rt: HostRuntime) -> Result<(), Fail> {
    let table = [
        (1, None),
        (7, None),
        (1, Some((4, ErrorKind::Interrupted))),
        (30, Some((1, ErrorKind::Interrupted))),
        (30, Some((2, ErrorKind::Interrupted))),
    ];
    for (most, failing) in table {
        let mut listing = Vec::new(rt.alloc());
        play(&mut Giver::new(EXAMPLE, most, failing), &mut listing)?;
        assert!(rt; listing.as_slice() == EXAMPLE_LISTING);
    }
    Ok(())
}

#[test]
fn a_reader_that_fails_ends_the_play(rt: HostRuntime) {
    // before the first byte, in the middle, and at the end
    for (most, call) in [(30, 1), (7, 3), (30, 2)] {
        let mut listing = Vec::new(rt.alloc());
        let failing = Some((call, ErrorKind::ConnectionReset));
        let played = play(&mut Giver::new(EXAMPLE, most, failing), &mut listing);
        let kind = played.err().map(|error| error.kind());
        assert!(rt; kind == Some(ErrorKind::ConnectionReset));
        assert!(rt; listing.is_empty());
    }
}

#[test]
fn a_listing_may_go_in_pieces(rt: HostRuntime) -> Result<(), Fail> {
    for most in [1, 3, 200] {
        let mut writer = Taker::new(rt.alloc(), most, 200);
        play(&mut &*EXAMPLE, &mut writer)?;
        assert!(rt; writer.taken.as_slice() == EXAMPLE_LISTING);
    }
    Ok(())
}

#[test]
fn a_writer_that_fails_has_the_front(rt: HostRuntime) {
    for (most, room) in [(200, 0), (1, 1), (3, 16), (200, EXAMPLE_LISTING.len() - 1)] {
        let mut writer = Taker::new(rt.alloc(), most, room);
        let played = play(&mut &*EXAMPLE, &mut writer);
        let kind = played.err().map(|error| error.kind());
        assert!(rt; kind == Some(ErrorKind::StorageFull));
        assert_eq!(rt; writer.taken.len(), room);
        assert!(rt; EXAMPLE_LISTING.starts_with(&writer.taken));
    }
}

// The first record of a trace that begins with a setup.
fn first_record<'b>(trace: &[u8], buffer: &'b mut SetupBuffer) -> Option<FirstRecord<'b>> {
    let mut reader = Reader::new(trace);
    match reader.next(buffer) {
        Ok(Some(Record::Setup(setup))) => Some(FirstRecord {
            setup,
            buffer,
            offset: reader.offset(),
        }),
        _ => None,
    }
}

// A player of a trace with this first record.
fn new_player<'a>(first: FirstRecord<'_>, image: &'a mut [u8]) -> Option<Player<'a>> {
    match Player::new(Ok(first), image) {
        Ok(player) => Some(player),
        Err(_) => None,
    }
}

// Makes so many calls of a player, and adds the lines that they write.
fn make_calls(
    player: &mut Player<'_>,
    trace: &[u8],
    calls: u32,
    listing: &mut Vec<u8>,
) -> Result<(), Fail> {
    for _ in 0..calls {
        let mut buffer = [b'-'; 128];
        let count = player.proceed(trace, &mut buffer)?;
        let (line, behind) = buffer.split_at(count.min(128));
        listing.extend_from_slice(line)?;
        if behind.iter().any(|byte| *byte != b'-') {
            listing.extend_from_slice(b"more was written than was told")?;
        }
    }
    Ok(())
}

#[test]
fn a_player_gives_its_image_back(rt: HostRuntime) -> Result<(), Fail> {
    let mut buffer = SetupBuffer::empty();
    let first = first_record(EXAMPLE, &mut buffer).expect(&rt, "a setup");
    let mut image = [7; IMAGE_ROOM];
    let mut player = new_player(first, &mut image).expect(&rt, "a player");
    let mut listing = Vec::new(rt.alloc());
    // five records, ten steps, four answers and the end
    make_calls(&mut player, EXAMPLE, 19, &mut listing)?;
    assert!(rt; !player.has_ended());
    make_calls(&mut player, EXAMPLE, 1, &mut listing)?;
    assert!(rt; player.has_ended());
    make_calls(&mut player, EXAMPLE, 3, &mut listing)?;
    assert!(rt; listing.as_slice() == EXAMPLE_LISTING);
    let (bytes, rest) = player.into_image();
    assert_eq!(rt; bytes.len(), 64);
    for (address, byte) in bytes.iter().enumerate() {
        // line 0 was written down with what was stored in it
        assert_eq!(rt;
            usize::from(*byte),
            if address == 5 { 200 } else { address }
        );
    }
    assert_eq!(rt; rest.len(), IMAGE_ROOM - 64);
    assert!(rt; rest.iter().all(|byte| *byte == 7));
    Ok(())
}

#[test]
fn a_player_needs_room(rt: HostRuntime) -> Result<(), Fail> {
    let mut buffer = SetupBuffer::empty();
    let first = first_record(EXAMPLE, &mut buffer).expect(&rt, "a setup");
    let mut small = [7; IMAGE_ROOM - 1];
    match Player::new(Ok(first), &mut small) {
        Ok(_) => panic!(rt; "a player on too few bytes"),
        Err(unmade) => {
            assert!(rt; unmade.refusal == Refusal::Room);
            assert!(rt; unmade.image.iter().all(|byte| *byte == 7));
        }
    }
    let mut image = [7; IMAGE_ROOM];
    let mut player = new_player(first, &mut image).expect(&rt, "a player");
    let mut listing = Vec::new(rt.alloc());
    for _ in 0..20 {
        let mut short = [b'-'; 127];
        assert!(rt; player.proceed(EXAMPLE, &mut short) == Err(Refusal::Room));
        assert!(rt; short == [b'-'; 127]);
        make_calls(&mut player, EXAMPLE, 1, &mut listing)?;
    }
    assert!(rt; player.has_ended());
    assert!(rt; listing.as_slice() == EXAMPLE_LISTING);
    Ok(())
}

#[test]
fn a_trace_that_is_cut_later_is_at_its_end(rt: HostRuntime) -> Result<(), Fail> {
    let mut buffer = SetupBuffer::empty();
    let first = first_record(EXAMPLE, &mut buffer).expect(&rt, "a setup");
    let mut image = [7; IMAGE_ROOM];
    let mut player = new_player(first, &mut image).expect(&rt, "a player");
    let mut listing = Vec::new(rt.alloc());
    // the store and the first load
    make_calls(&mut player, EXAMPLE, 2, &mut listing)?;
    // five steps, two answers and the end
    make_calls(&mut player, b"", 8, &mut listing)?;
    assert!(rt; player.has_ended());
    assert!(rt; listing.as_slice() == b"S 1\nL 2 117884932\nE 2 5\n".as_slice());
    Ok(())
}
