//! Worked sources.
use crate::{Refusal, Source, read_source};
use dna_items::{PatItem, TplItem};
use fuun_base::Base;
use source_items::{Factor, Line, SourceItem, Sum};
use std::alloc::Global;
use std::test::Fail;

#[test]
fn statements_are_refused(rt: HostRuntime) -> Result<(), Fail> {
    let alloc = rt.alloc();
    for (source, refusal) in [
        ("(!x)", Refusal::BadForm(4)),
        ("data {0}", Refusal::BadForm(5)),
        ("-> I\n?", Refusal::BadForm(5)),
        ("a[x y] = I", Refusal::BadForm(7)),
        ("data I P\nend: :", Refusal::BadForm(14)),
        ("-> blak", Refusal::BadName(3)),
        ("a = b\nb = a", Refusal::BadName(4)),
        ("a = I\na:", Refusal::BadName(0)),
        ("a:\n-> I\na:", Refusal::BadName(0)),
        ("f[x;x] = x", Refusal::BadName(4)),
        ("here:\n(!here) -> ", Refusal::BadName(8)),
        ("a[x;y] = x y\n-> a[I]", Refusal::BadName(16)),
        ("a[x] = x {0}\ndata a[I]", Refusal::BadName(18)),
    ] {
        let found = read_source(alloc, source.as_bytes(), 1000)?;
        assert_eq!(rt; found.err(), Some(refusal), "at {source:?}");
    }
    Ok(())
}

#[test]
fn numbers_and_patterns_are_refused(rt: HostRuntime) -> Result<(), Fail> {
    let alloc = rt.alloc();
    for (source, refusal) in [
        ("!9223372036854775808 -> ", Refusal::BadNumber(1)),
        ("-> {9223372036854775808} x", Refusal::BadName(25)),
        ("f[x] = x*1001", Refusal::TooLong),
        ("f[x] = x*1000000000000", Refusal::TooLong),
        (") -> ", Refusal::NoCode(0)),
        ("(I -> ", Refusal::NoCode(3)),
        ("<I>P -> ", Refusal::NoCode(3)),
        ("a = P\n<I>a -> ", Refusal::NoCode(9)),
    ] {
        let found = read_source(alloc, source.as_bytes(), 1000)?;
        assert_eq!(rt; found.err(), Some(refusal), "at {source:?}");
    }
    Ok(())
}

#[test]
fn lines_are_read(rt: HostRuntime) -> Result<(), Fail> {
    let alloc = rt.alloc();
    for (source, wanted) in [
        ("", ""),
        ("(!2)P -> PI{0,0}", "6 (!2)P->PI{0,0} "),
        ("a[x] = x x\n-> a[I F]*2 |1|", "11 ->IFIFIFIF|1| "),
        (
            "(!end) -> {0}\ndata ICFP\nend:\ndata P",
            "7 (!+1)->{0,0} 14 ICFP 29 P ",
        ),
        (
            "(!{2*self+rest})<C> -> \nb = I*1000000000000\n!b -> {1,3}",
            "20 (!2*self+rest)<C>-> 47 !1000000000000->{1,3} ",
        ),
        ("f[x] = x*1000\n-> f[I I]", "14 long "),
    ] {
        let text = match read_source(alloc, source.as_bytes(), 1000)? {
            Ok(read) => source_text(alloc, &read)?,
            Err(refusal) => format!(in alloc; "{refusal:?}")?,
        };
        assert_eq!(rt; text.as_str(), wanted, "at {source:?}");
    }
    Ok(())
}

#[test]
fn brackets_stand_in_brackets(rt: HostRuntime) -> Result<(), Fail> {
    let alloc = rt.alloc();
    for (depth, refusal) in [(64, None), (65, Some(Refusal::BadForm(67)))] {
        let mut source = String::from_str(alloc, "-> ")?;
        for bracket in ["[", "]"] {
            for _ in 0..depth {
                source.push_str(bracket)?;
            }
        }
        let found = read_source(alloc, source.as_bytes(), 1000)?;
        assert_eq!(rt; found.err(), refusal);
    }
    Ok(())
}

// Each line behind its place, with a blank behind each.
fn source_text(alloc: Global, source: &Source) -> Result<String, Fail> {
    let mut text = String::new(alloc);
    for (line, place) in source.lines.as_slice().iter().zip(source.places.as_slice()) {
        text.push_str(format!(in alloc; "{place} ")?.as_str())?;
        push_line(alloc, &mut text, line)?;
        text.push(' ')?;
    }
    Ok(text)
}

fn push_line(alloc: Global, text: &mut String, line: &Line) -> Result<(), Fail> {
    match line {
        Line::Plain(bases) => push_bases(text, bases.as_slice())?,
        Line::Pair { pattern, template } => {
            for item in pattern.as_slice() {
                push_pattern_item(alloc, text, item)?;
            }
            text.push_str("->")?;
            for item in template.as_slice() {
                push_template_item(alloc, text, *item)?;
            }
        }
        Line::Long { .. } => text.push_str("long")?,
    }
    Ok(())
}

fn push_bases(text: &mut String, bases: &[Base]) -> Result<(), Fail> {
    for base in bases {
        text.push(char::from(base.letter()))?;
    }
    Ok(())
}

fn push_pattern_item(alloc: Global, text: &mut String, item: &SourceItem) -> Result<(), Fail> {
    match item {
        SourceItem::Fixed(PatItem::Base(base)) => text.push(char::from(base.letter()))?,
        SourceItem::Fixed(PatItem::Skip(_)) => text.push('?')?,
        SourceItem::Fixed(PatItem::Search(bases)) => {
            text.push('<')?;
            push_bases(text, bases.as_slice())?;
            text.push('>')?;
        }
        SourceItem::Fixed(PatItem::GroupStart) => text.push('(')?,
        SourceItem::Fixed(PatItem::GroupStop) => text.push(')')?,
        SourceItem::Skip(sum) => push_sum(alloc, text, sum)?,
    }
    Ok(())
}

fn push_sum(alloc: Global, text: &mut String, sum: &Sum) -> Result<(), Fail> {
    for (at, product) in sum.as_slice().iter().enumerate() {
        text.push(if at == 0 { '!' } else { '+' })?;
        for (at, factor) in product.as_slice().iter().enumerate() {
            if at > 0 {
                text.push('*')?;
            }
            push_factor(alloc, text, *factor)?;
        }
    }
    Ok(())
}

fn push_factor(alloc: Global, text: &mut String, factor: Factor) -> Result<(), Fail> {
    match factor {
        Factor::Number(n) => text.push_str(format!(in alloc; "{n}")?.as_str())?,
        Factor::Rest => text.push_str("rest")?,
        Factor::Own => text.push_str("self")?,
        Factor::Next(count) => text.push_str(format!(in alloc; "+{count}")?.as_str())?,
    }
    Ok(())
}

fn push_template_item(alloc: Global, text: &mut String, item: TplItem) -> Result<(), Fail> {
    match item {
        TplItem::Base(base) => text.push(char::from(base.letter()))?,
        TplItem::Group { n, level } => {
            text.push_str(format!(in alloc; "{{{n},{level}}}")?.as_str())?
        }
        TplItem::Len(n) => text.push_str(format!(in alloc; "|{n}|")?.as_str())?,
    }
    Ok(())
}
