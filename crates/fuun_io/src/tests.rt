use super::*;
use crate::read::PIECE_BYTES;
use std::alloc::{AllocError, Global};
use std::test::Fail;

// More than one piece, and its last byte is another.
fn two_pieces(alloc: Global) -> Result<Vec<u8>, AllocError> {
    let mut bytes = vec![in alloc; 7; PIECE_BYTES + 9]?;
    bytes.push(8)?;
    Ok(bytes)
}

fn folder(alloc: Global) -> Result<MemFolder, Fail> {
    let mut folder = MemFolder::new(alloc);
    folder.add("long", &two_pieces(alloc)?)?;
    folder.add("empty", b"")?;
    folder.add("short", b"ICF")?;
    folder.add("short", b"ICFP")?;
    Ok(folder)
}

#[test]
fn files_are_read_whole(rt: HostRuntime) -> Result<(), Fail> {
    let alloc = rt.alloc();
    let long = two_pieces(alloc)?;
    for (name, want) in [
        ("long", long.as_slice()),
        ("empty", b"".as_slice()),
        ("short", b"ICFP".as_slice()),
    ] {
        let mut folder = folder(alloc)?;
        let cap = want.len() as u64;
        assert!(rt; cap < 1 << 20);
        let file = read_all(alloc, &mut folder, name, cap)?;
        assert_eq!(rt; file.as_slice(), want, "{name}");
    }
    Ok(())
}

#[test]
fn a_file_of_more_bytes_is_too_long(rt: HostRuntime) -> Result<(), Fail> {
    let alloc = rt.alloc();
    let length = PIECE_BYTES as u64 + 10;
    for (name, cap) in [
        ("long", length - 1),
        ("long", 9),
        ("short", 3),
        ("short", 0),
    ] {
        let answer = read_all(alloc, &mut folder(alloc)?, name, cap);
        assert_eq!(rt;
            answer.err(),
            Some(ReadError::InputTooLong),
            "{name} at {cap}"
        );
    }
    Ok(())
}

#[test]
fn a_read_that_fails_is_a_fault(rt: HostRuntime) -> Result<(), Fail> {
    let alloc = rt.alloc();
    let unknown = read_all(alloc, &mut folder(alloc)?, "unknown", 9);
    assert_eq!(rt; unknown.err(), Some(ReadError::ReadFault));
    for call in 0..3 {
        let mut folder = folder(alloc)?;
        folder.fail_at(call)?;
        let answer = read_all(alloc, &mut folder, "long", 1 << 20);
        assert_eq!(rt; answer.err(), Some(ReadError::ReadFault), "call {call}");
        assert!(rt;
            read_all(alloc, &mut folder, "long", 1 << 20).is_ok(),
            "after call {call}"
        );
    }
    Ok(())
}

#[test]
fn texts_are_written_as_far_as_there_is_room(rt: HostRuntime) -> Result<(), Fail> {
    let alloc = rt.alloc();
    for (room, most, want) in [
        (8, 8, Ok(())),
        (9, 3, Ok(())),
        (7, 8, Err(WriteFault)),
        (0, 1, Err(WriteFault)),
    ] {
        let mut sink = MemSink::with_room(alloc, room)?;
        sink.set_most(most);
        assert_eq!(rt; put_all(&mut sink, b"IICCFFPP"), want, "room {room}");
        assert_eq!(rt; sink.bytes(), &b"IICCFFPP"[..room.min(8)], "room {room}");
    }
    Ok(())
}

#[test]
fn pieces_are_written_one_after_another(rt: HostRuntime) -> Result<(), Fail> {
    let alloc = rt.alloc();
    for (call, want, text) in [
        (9, Ok(()), b"IICCFFPP".as_slice()),
        (3, Err(WriteFault), b"IICCF".as_slice()),
        (0, Err(WriteFault), b"".as_slice()),
    ] {
        let mut sink = MemSink::with_room(alloc, 100)?;
        sink.set_most(2);
        sink.fail_at(call)?;
        assert_eq!(rt;
            put_pieces(&mut sink, &[b"IIC", b"", b"CFFPP"]),
            want,
            "call {call}"
        );
        assert_eq!(rt; sink.bytes(), text, "call {call}");
    }
    Ok(())
}
