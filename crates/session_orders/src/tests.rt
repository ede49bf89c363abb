//! Lines and their orders.
use crate::{Line, Order, Until, read_order};
use std::alloc::Global;
use std::test::Fail;

#[test]
fn lines_order_as_worked(rt: HostRuntime) -> Result<(), Fail> {
    for (line, want) in [
        ("step 3", "Ordered(Step(3))"),
        ("step", "Ordered(Step(1))"),
        (" back\t2 # note\r", "Ordered(Back(2))"),
        ("where\r", "Ordered(Where)"),
        ("show 1 5", "Ordered(Show { lo: 1, hi: 5 })"),
        ("trace 1099511627776", "Ordered(Trace(1099511627776))"),
        ("until no match", "Ordered(Until(NoMatch))"),
        ("until front ICFP", "front [I, C, F, P]"),
        ("until length 7", "Ordered(Until(Length(7)))"),
        ("", "Nothing"),
        ("# only", "Nothing"),
        ("foo", "Refused"),
        ("step x", "Refused"),
        ("step 1 2", "Refused"),
        ("step 1099511627777", "Refused"),
        ("show 1", "Refused"),
        ("until", "Refused"),
        ("until no", "Refused"),
        ("until front", "Refused"),
        ("until front ICX", "Refused"),
    ] {
        let said = read_order(rt.alloc(), line.as_bytes())?;
        let text = text_of(rt.alloc(), &said)?;
        assert_eq!(rt; text.as_str(), want, "at {line:?}");
    }
    Ok(())
}

fn text_of(alloc: Global, said: &Line) -> Result<String, Fail> {
    match said {
        Line::Ordered(Order::Until(Until::Front(bases))) => {
            Ok(format!(in alloc; "front {:?}", bases.as_slice())?)
        }
        other => Ok(format!(in alloc; "{other:?}")?),
    }
}
