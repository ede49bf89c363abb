//! Worked sources.
use crate::{Place, Statements, Token, Word, place_of};
use fuun_base::{Base, NoMemory};
use std::alloc::Global;
use std::test::Fail;

// How many tokens each statement has, and where its last one ends.
fn sizes(alloc: Global, source: &[u8]) -> Result<Vec<(usize, u64)>, NoMemory> {
    let mut sizes = Vec::new(alloc);
    let mut left = Statements::new(alloc, source)?;
    for _ in 0..source.len() {
        if let Some(statement) = left.next_statement()? {
            sizes.push((statement.tokens.len(), statement.end))?;
        }
    }
    Ok(sizes)
}

#[test]
fn statements_are_cut(rt: HostRuntime) -> Result<(), Fail> {
    let alloc = rt.alloc();
    for (source, wanted) in [
        ("", vec![in alloc;]?),
        ("\n # data\n \t\r\n\\\n \\", vec![in alloc;]?),
        ("-> black\nend:", vec![in alloc; (2, 8), (2, 13)]?),
        ("I \\ # one\n C\\\nF", vec![in alloc; (3, 15)]?),
        (
            "I \\ C\nF#\\\nP \\",
            vec![in alloc; (3, 5), (1, 7), (1, 11)]?,
        ),
        ("- > -> 007 a_1B", vec![in alloc; (6, 15)]?),
    ] {
        let found = sizes(alloc, source.as_bytes())?;
        assert_eq!(rt; found.as_slice(), wanted.as_slice(), "at {source:?}");
    }
    Ok(())
}

#[test]
fn words_are_read(rt: HostRuntime) -> Result<(), Fail> {
    let alloc = rt.alloc();
    let mut left = Statements::new(
        alloc,
        b"clip ab\\\n=I 007{18446744073709551616}\nab self x ab",
    )?;
    let (first, second) = (left.next_statement()?, left.next_statement()?);
    let (Some(first), Some(second)) = (first, second) else {
        return Err(Fail::new("two statements"));
    };
    for (place, (word, at)) in [
        (Word::Name(22), 0),
        (Word::Name(23), 5),
        (Word::Equals, 9),
        (Word::Base(Base::I), 10),
        (Word::Number(7), 12),
        (Word::OpenBrace, 15),
        (Word::Number(1 << 63), 16),
        (Word::CloseBrace, 36),
    ]
    .into_iter()
    .enumerate()
    {
        assert_eq!(rt; first.tokens.get(place).copied(), Some(Token { word, at }));
    }
    for (place, id) in [23, 2, 24, 23].into_iter().enumerate() {
        assert_eq!(rt;
            second.tokens.get(place).map(|token| token.word),
            Some(Word::Name(id))
        );
    }
    Ok(())
}

#[test]
fn places_are_counted(rt: HostRuntime) -> Result<(), Fail> {
    let source = b"ab\n\nc";
    for (at, (line, column)) in [(1, 1), (1, 2), (1, 3), (2, 1), (3, 1), (3, 2)]
        .into_iter()
        .enumerate()
    {
        assert_eq!(rt;
            place_of(source, at.min(source.len())),
            Place { line, column }
        );
    }
    Ok(())
}
