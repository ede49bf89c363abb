//! Worked sources.
use crate::{SourceError, compile};
use source_tokens::Place;
use std::test::Fail;

#[test]
fn sources_are_refused(rt: HostRuntime) -> Result<(), Fail> {
    for (source, limit, refusal) in [
        (
            "-> I\n(!x)",
            1000,
            SourceError::BadSource(Place { line: 2, column: 5 }),
        ),
        (
            "a = b\nb = a",
            1000,
            SourceError::BadName(Place { line: 1, column: 5 }),
        ),
        (
            "-> \\\n{9223372036854775808}",
            1000,
            SourceError::BadNumber(Place { line: 2, column: 2 }),
        ),
        (
            "-> I\n!{9223372036854775807+1} ->\n-> C",
            1000,
            SourceError::BadNumber(Place {
                line: 2,
                column: 26,
            }),
        ),
        (
            "# no group\n ) ->",
            1000,
            SourceError::NoCode(Place { line: 2, column: 2 }),
        ),
        ("-> I*1000000000000", 1000, SourceError::TooLong),
        (
            "!{9223372036854775807+1} ->\n-> I*1000",
            1000,
            SourceError::BadNumber(Place {
                line: 1,
                column: 26,
            }),
        ),
        ("-> I", 6, SourceError::TooLong),
    ] {
        let found = compile(rt.alloc(), source.as_bytes(), limit);
        assert_eq!(rt; found.err(), Some(refusal), "at {source:?}");
    }
    Ok(())
}
