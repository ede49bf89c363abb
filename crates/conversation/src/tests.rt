//! Conversations over files in memory.
ghost use Rattle.std.specs.Prelude.{◌≡◌, ◌+◌, ◌<◌, ◌∷◌, ◌++◌, [], min};

use crate::talking::PIECE_BYTES;
use crate::{Answerer, TalkError, converse};
use fuun_base::Steps;
use fuun_io::{MemFolder, MemSink, Sink, put_pieces};
use std::alloc::{AllocError, Global};
use std::marker::Brand;
use std::process::Abort;
use std::sync::ledger::{Blank, Ledger};
use std::test::Fail;

/// Answers each line with the line and a mark behind it, which is one more for each line.
#[derive(Drop)]
struct Marker {
    mark: u8,
}

impl Answerer for Marker {
    ghost says = { λ old line new text. (new.mark ≡ min (old.mark + 1) 255) × (text ≡ line ++ (old.mark ∷ [])) };

    fn answer<K: Sink, L: Ledger>(
        &mut self,
        line: &[u8],
        _steps: &mut Steps<L>,
        sink: &mut K,
    ) -> Result<(), TalkError> {
        let mark = [self.mark];
        self.mark = self.mark.saturating_add(1);
        match put_pieces(sink, &[line, mark.as_slice()]) {
            Ok(()) => Ok(()),
            Err(_) => Err(TalkError::WriteFault),
        }
    }
}

#[test]
fn lines_are_answered_as_worked(rt: HostRuntime) -> Result<(), Fail> {
    answer_lines::<Brand>(&rt, rt.alloc(), Blank::new(1))
}

fn answer_lines<L: Ledger>(rt: &impl Abort, alloc: Global, blank: Blank) -> Result<(), Fail>
    requires name { blank.name ≡ L.name }
    requires parts { blank.parts ≡ L.parts }
    requires some { 0 < L.parts }
{
    let mut steps = Steps::<L>::new(blank);
    for (file, cap, want) in [
        (b"".as_slice(), 99, b"".as_slice()),
        (b"ab\ncd\n", 99, b"ab1cd2"),
        (b"ab\ncd", 99, b"ab1cd2"),
        (b"ab\n\n\ncd", 99, b"ab123cd4"),
        (b"\nab\n", 99, b"1ab2"),
        (b"ab\ncd\n", 5, b"ab1cd2"),
        (b"ab\ncd\n", 4, b"ab1c2"),
        (b"ab\ncd\n", 3, b"ab1"),
        (b"ab\ncd\n", 0, b""),
    ] {
        let mut folder = MemFolder::new(alloc);
        folder.add("file", file)?;
        let mut answerer = Marker { mark: b'1' };
        let mut sink = MemSink::with_room(alloc, 16)?;
        assert!(rt; cap < 100);
        let answer = converse(
            alloc,
            &mut folder,
            "file",
            cap,
            &mut answerer,
            &mut steps,
            &mut sink,
        );
        assert_eq!(rt; answer, Ok(()), "cap {cap}");
        assert_eq!(rt; sink.bytes(), want, "cap {cap}");
    }
    Ok(())
}

// A short line, and one that the end of the first piece cuts.
fn two_pieces(alloc: Global) -> Result<Vec<u8>, AllocError> {
    let mut bytes = vec![in alloc; b'x'; PIECE_BYTES + 4]?;
    bytes[2] = b'\n';
    Ok(bytes)
}

#[test]
fn whole_lines_are_answered_before_more_is_read(rt: HostRuntime) -> Result<(), Fail> {
    fail_to_read::<Brand>(&rt, rt.alloc(), Blank::new(1))
}

fn fail_to_read<L: Ledger>(rt: &impl Abort, alloc: Global, blank: Blank) -> Result<(), Fail>
    requires name { blank.name ≡ L.name }
    requires parts { blank.parts ≡ L.parts }
    requires some { 0 < L.parts }
{
    let mut steps = Steps::<L>::new(blank);
    for (call, answer, count) in [
        (0, Err(TalkError::ReadFault), 0),
        (1, Err(TalkError::ReadFault), 3),
        (2, Err(TalkError::ReadFault), 3),
        (9, Ok(()), PIECE_BYTES + 5),
    ] {
        let mut folder = MemFolder::new(alloc);
        folder.add("file", &two_pieces(alloc)?)?;
        folder.fail_at(call)?;
        let mut answerer = Marker { mark: b'1' };
        let mut sink = MemSink::with_room(alloc, PIECE_BYTES + 9)?;
        let got = converse(
            alloc,
            &mut folder,
            "file",
            1 << 20,
            &mut answerer,
            &mut steps,
            &mut sink,
        );
        assert_eq!(rt; got, answer, "call {call}");
        assert_eq!(rt; sink.bytes().len(), count, "call {call}");
    }
    Ok(())
}

#[test]
fn a_write_that_fails_is_a_fault(rt: HostRuntime) -> Result<(), Fail> {
    fail_to_write::<Brand>(&rt, rt.alloc(), Blank::new(1))
}

fn fail_to_write<L: Ledger>(rt: &impl Abort, alloc: Global, blank: Blank) -> Result<(), Fail>
    requires name { blank.name ≡ L.name }
    requires parts { blank.parts ≡ L.parts }
    requires some { 0 < L.parts }
{
    let mut steps = Steps::<L>::new(blank);
    let mut folder = MemFolder::new(alloc);
    folder.add("file", b"ab\ncd\n")?;
    let mut answerer = Marker { mark: b'1' };
    let mut sink = MemSink::with_room(alloc, 16)?;
    sink.fail_at(3)?;
    let answer = converse(
        alloc,
        &mut folder,
        "file",
        99,
        &mut answerer,
        &mut steps,
        &mut sink,
    );
    assert_eq!(rt; answer, Err(TalkError::WriteFault));
    assert_eq!(rt; sink.bytes(), b"ab1cd".as_slice());
    Ok(())
}
